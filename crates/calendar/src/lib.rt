// Dates of comments: the calendar, the order of stamps, and windows of date and minute.
#![tactic(auto)]

pub mod date; // date.rt: dates of the Gregorian calendar and undated notes, 34 and 46
pub mod order; // order.rt: which of two stamps is earlier
pub mod window; // window.rt: whether a note falls in a window
