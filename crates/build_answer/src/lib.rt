// What a build answers.
#![tactic(auto)]

pub mod answer; // answer.rt: the lengths of header, sound and trailer, or the refusal
