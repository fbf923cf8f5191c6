// Builds, asks and reads again what the original has answered, and compares. The file data/answers has the records, written by
// tools/differential; the file stdout holds what is to be printed where all agree. A number is written in groups of 7 bits, the
// highest first, the last one in a byte below 128. A packed list, of numbers or of bytes, begins with how many pieces it has; a
// piece is twice a count, and so many numbers; or twice a count and one more, and how far back so many are copied from. First
// how many records there are. A record begins with its kind:
// 0     a build: all its words, packed: 67, then pool, tracks, markers, comments, callers and lengths, each with its count in
//       front; raw, packed; the answer: 1 if it is by document 01 alone, 0 if it is the original's too; the number of the
//       refusal and its detail; or 0, the lengths of header, sound and trailer, and header and trailer, packed. A header or a
//       trailer of more bytes than there is room for here is recorded as 40 or 41 with its length
// 1     a file: words, packed: whether it is DST, the CRC switch, channels, positions, seed, and the lengths with their count
//       in front; the lengths of header and trailer, and 0, or 1 with header and trailer, packed (without them only queries can
//       be asked); how many windows there are, and the windows. A window is offset and length; the first position needed and
//       one past the last; how many lengths, bytes of DST frames and bytes of content are lent; 1 or 0 as above; the number of
//       the refusal, or 0 and the bytes that are filled, packed
#![tactic(auto)]

mod number; // number.rt: the numbers of a record, taken one after the other
mod unpack; // unpack.rt: packed lists of numbers, and of bytes
mod lists; // lists.rt: lists of words
mod buffers; // buffers.rt: the buffers of a build, what they hold before a call, the first bytes of one
mod counts; // counts.rt: what is counted
mod answer; // answer.rt: the recorded answer of a build
mod inputs; // inputs.rt: the inputs of a build, and the build
mod records; // records.rt: the rows of custom markers as records
mod by_records; // by_records.rt: a recorded build with custom markers, built again with these as records
mod builds; // builds.rt: a recorded build, built again
mod frames; // frames.rt: the bytes of frames
mod recorded_window; // recorded_window.rt: a recorded window
mod file; // file.rt: the file that windows are of
mod reads; // reads.rt: a recorded window, asked and read again
mod record; // record.rt: a record of any kind
mod replay; // replay.rt: all records
mod print; // print.rt: the lines of the totals

use std::{fs, io};

fn main(rt: HostRuntime) -> io::Result<()> {
    let answers = fs::open(&rt, "answers")?;
    replay::all(&rt, rt.alloc(), &answers)
}
