// The index of the frames: the chunk DSTI.
ghost use Rattle.std.specs.Prelude.{◌≡◌};
ghost use Rattle.chunk.specs.Append.{Appended, moved};
ghost use Rattle.dst_index.specs.Index.{shift_of, entry, index, dsti};

use chunk::Cursor;
use dst::unit::unit_size;

// Bytes of an entry.
const ENTRY: usize = 12;

// What an entry's offset leads to.
#[derive(Clone, Copy)]
pub enum DstIndexOffset {
    ChunkHeader, // the first byte of the DSTF chunk
    FrameData, // the frame's first byte, 12 bytes on
}

impl DstIndexOffset {
    // How far past the DSTF chunk's first byte.
    fn shift(self) -> u64
        ensures { result ≡ shift_of self }
    {
        match self {
            DstIndexOffset::ChunkHeader => 0,
            DstIndexOffset::FrameData => 12,
        }
    }
}

// An entry: where a frame is, and its length.
fn entry(c: Cursor, out: &mut [u8], offset: u64, length: u32) -> Cursor
    ensures { Appended out.old c.at (entry offset length) out.new result.at }
{
    c.be64(out, offset).be32(out, length)
}

// An entry for each frame, where the first unit starts at `base`, from the file's start.
pub fn index(
    mut c: Cursor,
    out: &mut [u8],
    crc: bool,
    offset: DstIndexOffset,
    base: u64,
    lengths: &[u32],
) -> Cursor
    ensures { Appended out.old c.at (index crc (moved base (shift_of offset)) lengths.now) out.new result.at }
{
    let mut at = base.saturating_add(offset.shift());
    for &length in lengths {
        c = entry(c, out, at, length);
        at = at.saturating_add(unit_size(crc, length));
    }
    c
}

// DSTI, where the first unit starts at `base`, from the file's start.
pub fn dsti(
    c: Cursor,
    out: &mut [u8],
    crc: bool,
    offset: DstIndexOffset,
    base: u64,
    lengths: &[u32],
) -> Cursor
    ensures { Appended out.old c.at (dsti crc (moved base (shift_of offset)) lengths.now) out.new result.at }
{
    // Not by `chunk_of`, which says nothing of data of 2^64 bytes: the entries of so many frames are more.
    let size_at = c.name(out, *b"DSTI");
    let from = size_at.data_start(out.len());
    let end = dsti_data(Cursor::new(), &mut out[from..], crc, offset, base, lengths);
    size_at.close(out, end)
}

// The data: the entries. Where not a byte of them fits, they are passed at once.
fn dsti_data(
    c: Cursor,
    out: &mut [u8],
    crc: bool,
    offset: DstIndexOffset,
    base: u64,
    lengths: &[u32],
) -> Cursor
    ensures { Appended out.old c.at (index crc (moved base (shift_of offset)) lengths.now) out.new result.at }
{
    if out.len() <= c.at {
        c.skip(lengths.len().saturating_mul(ENTRY))
    } else {
        index(c, out, crc, offset, base, lengths)
    }
}
