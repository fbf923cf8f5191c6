// The functions of abi as C calls them, in the library that a C program is linked with: each calls the one of its name there, and promises the same. A crate that others
// rest on is no library for C, so that this one is apart.
#![tactic(auto)]

pub mod text; // text.rt: converted texts, DIAR and DITI, COMT
pub mod sound; // sound.rt: the CRC, the DST chunk's head and index, and reads of the sound
pub mod property; // property.rt: PROP
pub mod diin; // diin.rt: DIIN
pub mod defaults; // defaults.rt: the words of a build before anything is told
pub mod verdict; // verdict.rt: the verdict on the inputs of a build
pub mod build; // build.rt: header and trailer of a file
pub mod reads; // reads.rt: the query and the read of a whole file
pub mod dates; // dates.rt: dates of comments, and windows of date and minute
