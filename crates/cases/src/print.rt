// Lines of the answer. The parts of the table need not be text, so they are written as bytes.
use refusal::verdict::{Verdict, detail_of, number_of};
use std::io;

pub(crate) fn text(rt: &impl Print, line: &[u8]) -> io::Result<()> {
    rt.write_all(line)?;
    println!(rt)
}

// The name with the space before it.
pub(crate) fn no_such_name(rt: &impl Print, name: &[u8]) -> io::Result<()> {
    print!(rt; "no such name:")?;
    text(rt, name)
}

// What is tried, and the number and the detail that are answered.
pub(crate) fn line(rt: &impl Print, label: &[u8], v: Verdict) -> io::Result<()> {
    rt.write_all(label)?;
    println!(rt; ": {} {}", number_of(v), detail_of(v))
}
