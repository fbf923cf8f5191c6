// Texts and comments of random cases. The bytes that they must have were taken out of the original's files.
use crate::print;
use crate::text_cases::{CASES, TextCase};
use chunk::Cursor;
use std::io;
use texts::extent::Extent;

// A text by itself.
fn converted(rt: &impl Print, case: &TextCase, text: Extent) -> io::Result<()> {
    let mut out = [0xEEu8; 16];
    let c = Cursor::new();
    let end = texts::text::text_bytes(c, &mut out, case.options.rule, case.pool, text);
    print!(rt; "text")?;
    print::written(rt, &out, end.at)
}

// A text that may be missing, by itself and as DIAR or DITI.
fn diin(rt: &impl Print, case: &TextCase, id: [u8; 4], text: Option<Extent>) -> io::Result<()> {
    let mut out = [0xEEu8; 32];
    if let Some(text) = text {
        converted(rt, case, text)?;
    }
    let c = Cursor::new();
    let end = diin_texts::diin_text::diin_text(c, &mut out, id, case.pool, text, case.options);
    rt.write_all(&id)?;
    print::written(rt, &out, end.at)
}

fn comments(rt: &impl Print, case: &TextCase) -> io::Result<()> {
    let mut out = [0xEEu8; 192];
    let c = Cursor::new();
    let end = comt::comt::comt(c, &mut out, case.pool, case.rows, case.options);
    print!(rt; "COMT")?;
    print::written(rt, &out, end.at)
}

pub(crate) fn cases(rt: &impl Print) -> io::Result<()> {
    for (i, case) in CASES.iter().enumerate() {
        println!(rt; "text case {}", i + 1)?;
        diin(rt, case, *b"DIAR", case.artist)?;
        diin(rt, case, *b"DITI", case.title)?;
        comments(rt, case)?;
    }
    Ok(())
}
