// What one word of a list means: a number, a switch, the beginning of a text.
#![tactic(auto)]

pub mod word; // word.rt: one word, as a number, a switch or a text
