// The sound of a file: DST by the lengths of its frames, DSD by the number n of its positions. A read skips so many bytes of the sound and fills
// `out`; the answer is how many bytes it filled, or the largest usize if what is lent is not what the needed positions have.
ghost use Rattle.std.specs.Prelude.{◌≡◌, [], ◌∷◌, ◌*◌, eqb, length, replicate};
ghost use Rattle.chunk.specs.Append.{Appended, moved};
ghost use Rattle.checksum.specs.Crc.{crc_of};
ghost use Rattle.dst.specs.Frame.{frame_bytes, plain_bytes, dsd_sound};
ghost use Rattle.dst.specs.Unit.{sound, sizes};
ghost use Rattle.sound_reads.specs.Positions.{positions_for, number, between};
ghost use Rattle.dst.specs.Head.{head};
ghost use Rattle.dst_index.specs.Index.{shift_of, index};
ghost use Rattle.sound_reads.specs.Lent.{is_lent, frames_with, contents_with};
ghost use Rattle.meanings.specs.Sound.{offset_of};
ghost use Rattle.abi.specs.Sound.{Count};
ghost use Rattle.abi.specs.Steps.{count_of};

use checksum::crc::crc;
use chunk::Cursor;
use dst::head::head;
use dst_index::index::index;
use meanings::sound::offset;
use window::window::Window;

// How many bytes a read filled.
fn count(fill: Option<Window>) -> usize
    ensures { result ≡ count_of fill }
{
    match fill {
        Some(w) => w.at,
        None => usize::MAX,
    }
}

#[unsafe(no_mangle)]
pub extern "C" fn jangqeruz_crc(content: &[u8]) -> u32
    ensures { result ≡ crc_of content.now }
{
    crc(content)
}

// The DST chunk's header and FRTE. What is written into `out` is what fits of it; the answer is the length of all of it.
#[unsafe(no_mangle)]
pub extern "C" fn jangqeruz_dst_head(out: &mut [u8], crc: bool, lengths: &[u32]) -> usize
    ensures { Appended out.old 0 (head crc lengths.now) out.new result }
{
    head(Cursor::new(), out, crc, lengths).at
}

// The data of DSTI, likewise, where the first unit starts at `base`.
#[unsafe(no_mangle)]
pub extern "C" fn jangqeruz_dst_index(
    out: &mut [u8],
    crc: bool,
    frame_data: bool,
    base: u64,
    lengths: &[u32],
) -> usize
    ensures { Appended out.old 0 (index crc (moved base (shift_of (offset_of frame_data))) lengths.now) out.new result }
{
    index(Cursor::new(), out, crc, offset(frame_data), base, lengths).at
}

// The needed positions: the first, and one past the last.
#[unsafe(no_mangle)]
pub extern "C" fn jangqeruz_dst_positions(
    range: &mut [usize; 2],
    crc: bool,
    lengths: &[u32],
    from: u64,
    count: u64,
)
    ensures { range.new ≡ (positions_for (sizes crc lengths.now) from count).first ∷ (positions_for (sizes crc lengths.now) from count).end ∷ [] }
{
    let p = dst_reads::dst_data::positions(crc, lengths, from, count);
    *range = [p.first, p.end];
}

#[unsafe(no_mangle)]
pub extern "C" fn jangqeruz_dsd_positions(
    range: &mut [usize; 2],
    channels: u8,
    n: u32,
    from: u64,
    count: u64,
)
    ensures { range.new ≡ (positions_for (replicate n (frame_bytes channels)) from count).first ∷ (positions_for (replicate n (frame_bytes channels)) from count).end ∷ [] }
{
    let p = dsd_reads::dsd_data::positions(channels, n, from, count);
    *range = [p.first, p.end];
}

#[unsafe(no_mangle)]
pub extern "C" fn jangqeruz_dst_fill(
    out: &mut [u8],
    skip: u64,
    crc: bool,
    channels: u8,
    lengths: &[u32],
    lent: &[u32],
    frames: &[u8],
    contents: &[u8],
) -> usize
    ensures { Count
        (is_lent (plain_bytes crc channels) (between (positions_for (sizes crc lengths.now) skip (length out.old)) lengths.now)
        lent.now frames.now contents.now)
        (sound crc (frames_with (plain_bytes crc channels) (positions_for (sizes crc lengths.now) skip (length out.old)) lengths.now
        frames.now contents.now))
        skip out.old out.new result }
{
    let start = Window { at: 0, skip };
    count(dst_reads::dst_data::fill(out, start, crc, channels, lengths, lent, frames, contents))
}

#[unsafe(no_mangle)]
pub extern "C" fn jangqeruz_dsd_fill(
    out: &mut [u8],
    skip: u64,
    channels: u8,
    n: u32,
    contents: &[u8],
) -> usize
    ensures { Count
        (eqb (frame_bytes channels * number (positions_for (replicate n (frame_bytes channels)) skip (length out.old))) (length contents.now))
        (dsd_sound (contents_with (frame_bytes channels) (positions_for (replicate n (frame_bytes channels)) skip (length out.old)) n contents.now))
        skip out.old out.new result }
{
    let start = Window { at: 0, skip };
    count(dsd_reads::dsd_data::fill(out, start, channels, n, contents))
}
