// Lines of the answer.
use crate::counts::{Count, Counts};
use crate::number::plus;
use std::io;

// How many are of each kind of sound.
fn kinds(rt: &impl Print, dsd: usize, dst: usize, dst_with_crcs: usize) -> io::Result<()> {
    print!(rt; " (DSD: {dsd}, DST: {dst}, DST with CRCs: {dst_with_crcs})")
}

fn builds(rt: &impl Print, counts: &Counts) -> io::Result<()> {
    let built = counts.get(Count::Built);
    let refused = counts.get(Count::Refused);
    let agree = counts.get(Count::BuildsAgree);
    let bytes = counts.get(Count::Bytes);
    let short = counts.get(Count::Short);
    print!(rt; "builds: {}; built: {built}", plus(built, refused))?;
    kinds(
        rt,
        counts.get(Count::BuiltDsd),
        counts.get(Count::BuiltDst),
        counts.get(Count::BuiltDstWithCrcs),
    )?;
    println!(rt; "; refused: {refused}; agree: {agree}")?;
    println!(rt; "bytes of headers and trailers that agree: {bytes}")?;
    println!(rt; "builds with a buffer one byte short, 40 or 41: {short}")
}

fn with_records(rt: &impl Print, counts: &Counts) -> io::Result<()> {
    let custom = counts.get(Count::Custom);
    let answered = counts.get(Count::ByRecords);
    let agree = counts.get(Count::RecordsAgree);
    print!(rt; "builds with custom markers: {custom}")?;
    println!(rt; "; answered through records too: {answered}; agree: {agree}")
}

fn without_records(rt: &impl Print, counts: &Counts) -> io::Result<()> {
    let at_fault = counts.get(Count::WordsAtFault);
    let cut_short = counts.get(Count::RowCutShort);
    let no_such_kind = counts.get(Count::NoSuchKind);
    let too_many = counts.get(Count::TooMany);
    print!(rt; "not through records: words at fault: {at_fault}; a row cut short: {cut_short}")?;
    println!(rt; "; no such kind: {no_such_kind}; too many markers: {too_many}")
}

fn reads(rt: &impl Print, counts: &Counts) -> io::Result<()> {
    let filled = counts.get(Count::Filled);
    let not_filled = counts.get(Count::NotFilled);
    let agree = counts.get(Count::ReadsAgree);
    let bytes = counts.get(Count::FilledBytes);
    print!(rt; "queries: {}", counts.get(Count::Queries))?;
    kinds(
        rt,
        counts.get(Count::WindowsDsd),
        counts.get(Count::WindowsDst),
        counts.get(Count::WindowsDstWithCrcs),
    )?;
    println!(rt; "; agree: {}", counts.get(Count::QueriesAgree))?;
    print!(rt; "reads: {}; filled: {filled}", plus(filled, not_filled))?;
    println!(rt; "; refused: {not_filled}; agree: {agree}")?;
    println!(rt; "bytes filled that agree: {bytes}")
}

pub(crate) fn totals(rt: &impl Print, records: usize, counts: &Counts) -> io::Result<()> {
    let alone = counts.get(Count::Alone);
    println!(rt; "records: {records}")?;
    builds(rt, counts)?;
    with_records(rt, counts)?;
    without_records(rt, counts)?;
    reads(rt, counts)?;
    println!(rt; "of builds and windows, answered by document 01 alone: {alone}")
}

// How often each number was recorded, but for 0.
pub(crate) fn refusals(rt: &impl Print, counts: &Counts) -> io::Result<()> {
    for (k, times) in counts.refusals().iter().enumerate().skip(1) {
        if *times > 0 {
            println!(rt; "refusal {k}: {times}")?;
        }
    }
    Ok(())
}
