// The sound of a file of two DST frames, of 3 and of 4 bytes, and the positions of DSD sound.
use crate::print::{self, yes_or_no};
use chunk::Cursor;
use dsd_reads::dsd_data;
use dst::unit;
use dst_index::index::DstIndexOffset;
use dst_reads::dst_data;
use sound_reads::place::Positions;
use std::io;
use window::window::Window;

static LENGTHS: [u32; 2] = [3, 4];

fn crc(rt: &impl Print, content: &[u8]) -> io::Result<()> {
    let mut out = [0u8; 4];
    let c = Cursor::new();
    c.be32(&mut out, checksum::crc::crc(content));
    print!(rt; "CRC of {} bytes:", content.len())?;
    print::bytes(rt, &out)
}

fn sizes(rt: &impl Print, crc: bool) -> io::Result<()> {
    let mut out = [0xEEu8; 30];
    let c = Cursor::new();
    dst::head::head(c, &mut out, crc, &LENGTHS);
    println!(rt; "lengths 3 and 4, CRC: {}", yes_or_no(crc))?;
    print!(rt;
        "units of {} and {} bytes",
        unit::unit_size(crc, 3),
        unit::unit_size(crc, 4)
    )?;
    print!(rt; ", starts")?;
    for k in 0..3 {
        print!(rt; " {}", unit::start(crc, &LENGTHS, k))?;
    }
    print!(rt; ", sound {}", unit::units(crc, &LENGTHS))?;
    println!(rt; ", DST size {}", unit::data_size(crc, &LENGTHS))?;
    print!(rt; "DST head:")?;
    print::bytes(rt, &out)
}

fn entries(rt: &impl Print, title: &str, crc: bool, offset: DstIndexOffset) -> io::Result<()> {
    let mut out = [0xEEu8; 24];
    let c = Cursor::new();
    dst_index::index::index(c, &mut out, crc, offset, 158, &LENGTHS);
    print!(rt; "index from 158, {title}:")?;
    print::bytes(rt, &out)
}

// A read of 1 channel from w on.
fn read(
    rt: &impl Print,
    out: &mut [u8],
    w: Window,
    crc: bool,
    lent: &[u32],
    frames: &[u8],
    contents: &[u8],
) -> io::Result<()> {
    print!(rt; "read from {}, at {} of {}, ", w.skip, w.at, out.len())?;
    println!(rt; "{} bytes lent, CRC: {}", frames.len(), yes_or_no(crc))?;
    match dst_data::fill(out, w, crc, 1, &LENGTHS, lent, frames, contents) {
        Some(v) => println!(rt; "filled to {}, {} to skip", v.at, v.skip)?,
        None => println!(rt; "not lent")?,
    }
    print!(rt; "buffer:")?;
    print::bytes(rt, out)
}

fn reads(rt: &impl Print) -> io::Result<()> {
    let frames = [0xA1, 0xA2, 0xA3, 0xB1, 0xB2, 0xB3, 0xB4];
    // Two plain contents, zeros up to their last bytes.
    let mut contents = [0u8; 9408];
    contents[4703] = 1;
    contents[9407] = 2;

    let front = Window { at: 0, skip: 0 };
    let mut plain = [0xEE; 40];
    read(rt, &mut plain, front, false, &LENGTHS, &frames, b"")?;
    let mut with_crc = [0xEE; 72];
    read(rt, &mut with_crc, front, true, &LENGTHS, &frames, &contents)?;

    let w = Window { at: 1, skip: 9 };
    let mut both = [0xEE; 11];
    read(rt, &mut both, w, false, &LENGTHS, &frames, b"")?;
    let mut one = [0xEE; 11];
    read(
        rt,
        &mut one,
        w,
        true,
        &LENGTHS[..1],
        &frames[..3],
        &contents[..4704],
    )?;
    let mut short = [0xEE; 11];
    read(rt, &mut short, w, false, &LENGTHS, &frames[..6], b"")?;

    let past = Window { at: 1, skip: 40 };
    let mut none = [0xEE; 11];
    read(rt, &mut none, past, false, &[], b"", b"")
}

fn touched(rt: &impl Print, title: &str, from: u64, count: u64, p: Positions) -> io::Result<()> {
    print!(rt; "{title}, {count} bytes from {from}")?;
    println!(rt; ": positions {} to {}", p.first, p.end)
}

fn dst_positions(rt: &impl Print, from: u64, count: u64) -> io::Result<()> {
    let p = dst_data::positions(false, &LENGTHS, from, count);
    touched(rt, "DST", from, count, p)
}

fn dsd_positions(rt: &impl Print, from: u64, count: u64) -> io::Result<()> {
    let p = dsd_data::positions(2, 3, from, count);
    touched(rt, "DSD", from, count, p)
}

pub(crate) fn cases(rt: &impl Print) -> io::Result<()> {
    crc(rt, b"")?;
    crc(rt, b"\x01")?;
    crc(
        rt,
        b"\x00\x11\x22\x33\x44\x55\x66\x77\x88\x99\xAA\xBB\xCC\xDD\xEE\xFF",
    )?;
    sizes(rt, false)?;
    sizes(rt, true)?;
    entries(rt, "ChunkHeader", false, DstIndexOffset::ChunkHeader)?;
    entries(rt, "FrameData", false, DstIndexOffset::FrameData)?;
    entries(rt, "ChunkHeader, CRC", true, DstIndexOffset::ChunkHeader)?;
    reads(rt)?;
    for (from, count) in [
        (0, 16),
        (15, 1),
        (15, 2),
        (16, 1),
        (9, 10),
        (0, 40),
        (5, 0),
        (32, 1),
    ] {
        dst_positions(rt, from, count)?;
    }
    for (from, count) in [
        (9_407, 1),
        (9_407, 2),
        (9_408, 1),
        (0, 9_408),
        (0, 9_409),
        (9_407, 9_409),
        (9_407, 9_410),
        (9_408, 0),
        (28_223, 9),
        (28_224, 1),
    ] {
        dsd_positions(rt, from, count)?;
    }
    Ok(())
}
