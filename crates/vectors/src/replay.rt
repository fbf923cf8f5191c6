// All records. Of the file 65,536 bytes are held at a time: no record has as many.
use crate::counts::Counts;
use crate::number::{Numbers, PAST};
use crate::{print, record};
use std::alloc::Global;
use std::fs::File;
use std::io;
use std::os::unix::fs::FileExt;

// How many bytes of the file are held at a time.
const HELD: usize = 65_536;

// The place so many bytes behind another, if a file has it.
fn place(at: u64, bytes: usize) -> Option<u64> {
    at.checked_add(bytes as u64).filter(|at| *at < PAST as u64)
}

// How many records there are, and where they begin, if the file does not end before.
fn head(answers: &File) -> io::Result<(usize, Option<u64>)> {
    let mut bytes = [0u8; 10];
    let n = answers.read_at(&mut bytes, 0)?;
    let mut numbers = Numbers::new(&bytes[..n]);
    let records = numbers.take_count();
    let left = numbers.left();
    Ok((records, left.map(|left| n.saturating_sub(left) as u64)))
}

// Whether the file has nothing at this place.
fn ends(answers: &File, at: u64) -> io::Result<bool> {
    let mut byte = [0u8; 1];
    Ok(answers.read_at(&mut byte, at)? == 0)
}

// The record at this place. Whether all is as recorded, and where the next one stands, if it does not end too early.
fn run(
    alloc: Global,
    answers: &File,
    at: u64,
    counts: &mut Counts,
) -> io::Result<(bool, Option<u64>)> {
    let mut room = [0u8; HELD];
    let n = answers.read_at(&mut room, at)?;
    let mut numbers = Numbers::new(&room[..n]);
    let agrees = record::run(alloc, &mut numbers, counts)?;
    match numbers.left() {
        Some(left) => Ok((agrees, place(at, n.saturating_sub(left)))),
        None => Ok((false, None)),
    }
}

pub(crate) fn all(rt: &impl Print, alloc: Global, answers: &File) -> io::Result<()> {
    let mut counts = Counts::new();
    let mut done = 0;
    let (records, mut next) = head(answers)?;
    for k in 0..records {
        let Some(at) = next else {
            break;
        };
        let (agrees, end) = run(alloc, answers, at, &mut counts)?;
        done = k + 1;
        if !agrees {
            println!(rt; "differs: record {done}")?;
        }
        next = end;
    }
    match next {
        None => println!(rt; "the file is cut short")?,
        Some(at) if !ends(answers, at)? => println!(rt; "the file is too long")?,
        Some(_) => {}
    }
    print::totals(rt, done, &counts)?;
    print::refusals(rt, &counts)
}
