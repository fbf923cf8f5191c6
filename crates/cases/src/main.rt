// Runs a table of cases through the verdict on a build's inputs and writes what is answered. The file stdin has the table, of
// at most 65,536 bytes, and says how to read it; the file stdout holds what document 01 wants. Each refusal is tried on either
// side of its limit, and with its neighbour.
#![tactic(auto)]

mod part; // part.rt: parts of a text
mod number; // number.rt: a number of a text
mod names; // names.rt: which word or list a name stands for
mod fill; // fill.rt: the numbers of a text
mod case; // case.rt: what a case is lent, and the verdict on it
mod table; // table.rt: the table, line by line
mod print; // print.rt: a line of the answer

use std::io;
use std::io::Read;

// How many bytes of the input are read.
const MOST: u64 = 65_536;

fn main(rt: HostRuntime) -> io::Result<()> {
    let mut text = Vec::new(rt.alloc());
    rt.reader().take(MOST).read_to_end(&mut text)?;
    table::lines(&rt, &text)
}
