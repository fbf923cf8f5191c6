// The DST chunk up to its first frame.
ghost use Rattle.chunk.specs.Append.{Appended};
ghost use Rattle.dst.specs.Head.{rate, frte, head};
ghost use Rattle.dst.specs.Sized.{head_sized};

use crate::unit::{units, with_frte};
use chunk::Cursor;

// Frames a second.
const FRAME_RATE: u16 = 75;

// The data of FRTE: the number of frames and their rate.
fn rate(c: Cursor, out: &mut [u8], frames: u32) -> Cursor
    ensures { Appended out.old c.at (rate frames) out.new result.at }
{
    c.be32(out, frames).be16(out, FRAME_RATE)
}

// FRTE.
fn frte(c: Cursor, out: &mut [u8], frames: u32) -> Cursor
    ensures { Appended out.old c.at (frte frames) out.new result.at }
{
    c.chunk_of(out, *b"FRTE", |c, out| rate(c, out, frames))
}

// The header of the DST chunk, and FRTE, of so many frames whose units have so many bytes together.
pub fn head_sized(c: Cursor, out: &mut [u8], bytes: u64, frames: usize) -> Cursor
    ensures { Appended out.old c.at (head_sized bytes frames) out.new result.at }
{
    let c = c.chunk_head(out, *b"DST ", with_frte(bytes));
    frte(c, out, (frames % 0x1_0000_0000) as u32)
}

// The header of the DST chunk, and FRTE, of frames of these lengths.
pub fn head(c: Cursor, out: &mut [u8], crc: bool, lengths: &[u32]) -> Cursor
    ensures { Appended out.old c.at (head crc lengths.now) out.new result.at }
{
    head_sized(c, out, units(crc, lengths), lengths.len())
}
