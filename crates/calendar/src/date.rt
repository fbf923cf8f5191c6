// Dates of the Gregorian calendar, and what is wrong with others (34 and 46).
ghost use Rattle.std.specs.Prelude.{◌≡◌};
ghost use Rattle.calendar.specs.Date.{is_leap, is_short, days_in, is_date, is_undated, out_of_range, stamp_fault, date_fault, note_fault};

use refusal::verdict::{Refusal, Verdict, refuse_if};

// A date and a time of day, to the minute: the largest unit first, as stamps are compared.
#[derive(Clone, Copy, PartialEq, Eq, PartialOrd, Ord)]
pub struct Stamp {
    pub year: u32,
    pub month: u32,
    pub day: u32,
    pub hour: u32,
    pub minutes: u32,
}

fn is_leap(year: u32) -> bool
    ensures { result ≡ is_leap year }
{
    (year % 4 == 0) & ((year % 100 != 0) | (year % 400 == 0))
}

// Whether a month has 30 days.
fn is_short(month: u32) -> bool
    ensures { result ≡ is_short month }
{
    matches!(month, 4 | 6 | 9 | 11)
}

fn days_in(year: u32, month: u32) -> u32
    ensures { result ≡ days_in year month }
{
    match month {
        2 if is_leap(year) => 29,
        2 => 28,
        _ if is_short(month) => 30,
        _ => 31,
    }
}

// Whether it is a date of the calendar, from year 1 on.
pub fn is_date(s: Stamp) -> bool
    ensures { result ≡ is_date s }
{
    (1 <= s.year)
        & ((1 <= s.month)
            & ((s.month <= 12) & ((1 <= s.day) & (s.day <= days_in(s.year, s.month)))))
}

// Whether it is the sign for an undated note.
pub fn is_undated(s: Stamp) -> bool
    ensures { result ≡ is_undated s }
{
    (s.month == 0) & (s.day == 0)
}

// Whether a number of it passes what 34 allows.
fn out_of_range(s: Stamp) -> bool
    ensures { result ≡ out_of_range s }
{
    (65_535 < s.year) | ((12 < s.month) | ((31 < s.day) | ((23 < s.hour) | (59 < s.minutes))))
}

// 34, then 46 where it is not allowed.
fn stamp_fault(s: Stamp, allowed: bool) -> Verdict
    ensures { result ≡ stamp_fault s allowed }
{
    refuse_if(out_of_range(s), Refusal::CommentDate)?;
    refuse_if(!allowed, Refusal::NoDate)
}

// 34 and 46 of what must be a date.
pub fn date_fault(s: Stamp) -> Verdict
    ensures { result ≡ date_fault s }
{
    stamp_fault(s, is_date(s))
}

// 34 and 46 of a note, which may be undated.
pub fn note_fault(s: Stamp) -> Verdict
    ensures { result ≡ note_fault s }
{
    stamp_fault(s, is_date(s) | is_undated(s))
}
