// DST sound: the units of its frames.
ghost use Rattle.std.specs.Prelude.{◌≡◌, ◌*◌, length};
ghost use Rattle.chunk_names.specs.Name.{ascii};
ghost use Rattle.chunk.specs.Number.{be};
ghost use Rattle.chunk.specs.Chunk.{chunk};
ghost use Rattle.checksum.specs.Crc.{crc_of};
ghost use Rattle.dst.specs.Frame.{plain_bytes};
ghost use Rattle.dst.specs.Unit.{unit_bytes, sound, sizes};
ghost use Rattle.dst.specs.Start.{sum};
ghost use Rattle.sound_reads.specs.Positions.{positions_for, between};
ghost use Rattle.window.specs.Window.{Wrote};
ghost use Rattle.sound_reads.specs.Fill.{Filling};
ghost use Rattle.sound_reads.specs.Lent.{needed_at, is_lent, lent_frames, frames_with};

use crate::walk::{locate, touched};
use checksum::crc::crc;
use chunk::Cursor;
use dst::frame::plain_bytes;
use sound_reads::lent::{filled, is_lent};
use sound_reads::place::Positions;
use window::window::Window;

// A frame's DSTF chunk: header, DST bytes, pad.
fn dstf(out: &mut [u8], w: Window, frame: &[u8]) -> Window
    ensures { Wrote (chunk (ascii "DSTF") frame.now) w out.old out.new result }
{
    let mut header = [0u8; 12];
    Cursor::new().chunk_head(&mut header, *b"DSTF", frame.len() as u64);
    let pad = frame.len() % 2;
    w.put(out, &header).put(out, frame).put(out, &[0u8][..pad])
}

// A DSTC chunk with the CRC of a frame's plain content.
fn dstc_bytes(content: &[u8]) -> [u8; 16]
    ensures { result ≡ chunk (ascii "DSTC") (be 4 (crc_of content.now)) }
{
    let mut bytes = [0u8; 16];
    let c = Cursor::new().chunk_head(&mut bytes, *b"DSTC", 4);
    c.be32(&mut bytes, crc(content));
    bytes
}

// A frame's DSTC chunk. The CRC is worked out only if a byte of the chunk is wanted.
fn dstc(out: &mut [u8], w: Window, content: &[u8]) -> Window
    ensures { Wrote (chunk (ascii "DSTC") (be 4 (crc_of content.now))) w out.old out.new result }
{
    if out.len() <= w.at || 16 <= w.skip {
        w.pass(16)
    } else {
        w.put(out, &dstc_bytes(content))
    }
}

// A frame's unit.
fn unit(out: &mut [u8], w: Window, crc: bool, frame: &[u8], content: &[u8]) -> Window
    ensures { Wrote (unit_bytes crc (record { code = frame.now; content = content.now })) w out.old out.new result }
{
    let w = dstf(out, w, frame);
    if crc { dstc(out, w, content) } else { w }
}

// The units of frames of these lengths, their DST bytes joined, and n bytes of content for each joined.
fn units(
    out: &mut [u8],
    mut w: Window,
    crc: bool,
    lengths: &[u32],
    frames: &[u8],
    n: usize,
    contents: &[u8],
) -> Window
    requires lengths_value { sum lengths.now ≡ length frames.now }
    requires lengths_value_2 { n * length lengths.now ≡ length contents.now }
    ensures { Wrote (sound crc (lent_frames n lengths.now frames.now contents.now)) w out.old out.new result }
{
    let mut frames_left = frames;
    let mut contents_left = contents;
    for &length in lengths {
        let (frame, later_frames) = frames_left.split_at(length as usize);
        let (content, later_contents) = contents_left.split_at(n);
        w = unit(out, w, crc, frame, content);
        frames_left = later_frames;
        contents_left = later_contents;
    }
    w
}

// The positions that a read of so many bytes from a place of the sound on needs: the first whose unit it touches and one past the last, 0
// and 0 for none.
pub fn positions(crc: bool, lengths: &[u32], from: u64, count: u64) -> Positions
    ensures { result ≡ positions_for (sizes crc lengths.now) from count }
{
    let place = locate(crc, lengths, from);
    touched(crc, lengths, place, count)
}

// Fills the rest of `out` with the sound of a file, after what w skips of it. Lent are the lengths of the needed positions, their DST bytes
// joined and, with CRC on, their plain contents joined. The answer is the place after the sound, or none if what is lent does not have the
// lengths that it should: then nothing is written.
pub fn fill(
    out: &mut [u8],
    w: Window,
    crc: bool,
    channels: u8,
    lengths: &[u32],
    lent: &[u32],
    frames: &[u8],
    contents: &[u8],
) -> Option<Window>
    ensures { Filling
        (is_lent (plain_bytes crc channels) (between (needed_at (sizes crc lengths.now) w out.old) lengths.now)
        lent.now frames.now contents.now)
        (sound crc (frames_with (plain_bytes crc channels) (needed_at (sizes crc lengths.now) w out.old) lengths.now
        frames.now contents.now))
        w out.old out.new result }
{
    let place = locate(crc, lengths, w.skip);
    let free = out.len().saturating_sub(w.at);
    let Positions { first, end } = touched(crc, lengths, place, free as u64);
    let n = plain_bytes(crc, channels);
    if !is_lent(&lengths[first..end], lent, frames, n, contents) {
        return None;
    }
    let begin = Window {
        at: w.at,
        skip: place.within,
    };
    let v = units(out, begin, crc, lent, frames, n, contents);
    Some(filled(v.at, place, lengths.len()))
}
