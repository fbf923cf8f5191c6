// The library for programs in other languages: numbers and plain slices, and nothing worked out here. A slice is a pointer and the number of
// its elements.
#![tactic(auto)]

pub mod text; // text.rt: converted texts, DIAR and DITI, COMT
pub mod sound; // sound.rt: the CRC, the DST chunk's head and index, and reads of the sound
pub mod property; // property.rt: PROP
pub mod diin; // diin.rt: DIIN
pub mod defaults; // defaults.rt: the words of a build before anything is told
pub mod verdict; // verdict.rt: the verdict on the inputs of a build
pub mod build; // build.rt: header and trailer of a file
pub mod reads; // reads.rt: the query and the read of a whole file
pub mod dates; // dates.rt: dates of comments, and windows of date and minute
