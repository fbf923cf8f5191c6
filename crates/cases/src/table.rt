// The table, line by line.
use crate::case::{Case, WORDS};
use crate::print;
use std::io;

// A case, or the plain one, which has no label and which the others change. A label has a space behind it.
fn case(
    rt: &(impl Print + AllocGlobal),
    table: &[u8],
    label: &[u8],
    changes: &[u8],
    plain: &mut [u32; WORDS],
) -> io::Result<()> {
    let mut case = Case::new(rt.alloc(), *plain);
    case.changes(rt, table, changes)?;
    match label.split_last() {
        Some((_, label)) => print::line(rt, label, case.verdict(rt.alloc())?),
        None => {
            *plain = case.words;
            Ok(())
        }
    }
}

// A line: a case, or what is only written.
fn line(
    rt: &(impl Print + AllocGlobal),
    table: &[u8],
    line: &[u8],
    plain: &mut [u32; WORDS],
) -> io::Result<()> {
    match line.iter().position(|b| *b == b'|') {
        Some(bar) => case(rt, table, &line[..bar], &line[bar + 1..], plain),
        None => print::text(rt, line),
    }
}

pub(crate) fn lines(rt: &(impl Print + AllocGlobal), table: &[u8]) -> io::Result<()> {
    let mut plain = [0; WORDS];
    for text in table.split(|b| *b == b'\n') {
        match text.first() {
            None | Some(0 | b'#' | b'=') => {}
            Some(_) => line(rt, table, text, &mut plain)?,
        }
    }
    Ok(())
}
