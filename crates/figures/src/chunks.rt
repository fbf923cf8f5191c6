use crate::print;
use chunk::Cursor;
use std::io;

fn time(rt: &impl Print, g: u64) -> io::Result<()> {
    let t = frame_time::time::time(g);
    let mut out = [0u8; 8];
    let c = Cursor::new();
    frame_time::time::time_bytes(c, &mut out, t);
    print!(rt;
        "time of frame {g}: hours {} minutes {}",
        t.hours, t.minutes
    )?;
    print!(rt; " seconds {} samples {}, bytes", t.seconds, t.samples)?;
    print::bytes(rt, &out)
}

pub(crate) fn times(rt: &impl Print) -> io::Result<()> {
    for g in [
        0,
        74,
        75,
        4_500,
        270_000,
        6_479_999,
        17_694_720_000,
        u64::MAX,
    ] {
        time(rt, g)?;
    }
    Ok(())
}

pub(crate) fn sizes(rt: &impl Print) -> io::Result<()> {
    for d in [0, 19, 20, u64::MAX - 13, u64::MAX - 12, u64::MAX] {
        println!(rt; "{d} bytes of data occupy {}", chunk::chunks::occupied(d))?;
    }
    Ok(())
}

pub(crate) fn chunks(rt: &impl Print) -> io::Result<()> {
    let c = Cursor::new();
    let mut fver = [0xEEu8; 16];
    c.chunk(&mut fver, *b"FVER", &[1, 5, 0, 0]);
    print!(rt; "FVER:")?;
    print::bytes(rt, &fver)?;

    let mut odd = [0xEEu8; 20];
    c.chunk(&mut odd, *b"EMID", b"abc");
    print!(rt; "EMID, 3 bytes, of a buffer of 20:")?;
    print::bytes(rt, &odd)?;

    let mut even = [0xEEu8; 20];
    c.chunk(&mut even, *b"EMID", b"abcd");
    print!(rt; "EMID, 4 bytes, of a buffer of 20:")?;
    print::bytes(rt, &even)
}

pub(crate) fn short_buffers(rt: &impl Print) -> io::Result<()> {
    let c = Cursor::new();
    let mut short = [0xEEu8; 15];
    let d = c.chunk(&mut short, *b"EMID", b"abcd");
    print!(rt; "EMID, 4 bytes, of a buffer of 15:")?;
    print::bytes(rt, &short)?;
    println!(rt; "cursor at {}", d.at)?;

    let e = c.chunk(&mut [], *b"EMID", b"abcd");
    println!(rt; "measured on an empty buffer: {}", e.at)?;

    let mut seven = [0xEEu8; 7];
    let f = c.be64(&mut seven, 0x0102_0304_0506_0708);
    print!(rt; "an 8-byte number of a buffer of 7:")?;
    print::bytes(rt, &seven)?;
    println!(rt; "cursor at {}", f.at)
}

pub(crate) fn names(rt: &impl Print) -> io::Result<()> {
    for id in [*b"FRM8", *b"MANF", *b"DSTF", *b"ID3 "] {
        rt.write_all(&id)?;
        let reserved = print::yes_or_no(chunk_names::is_reserved(id));
        println!(rt; " is reserved: {reserved}")?;
    }
    Ok(())
}
