// Places in DST sound, found by walking the lengths.
ghost use Rattle.std.specs.Prelude.{◌≡◌, ℕ, ◌≤◌, ◌<◌, length, get_or};
ghost use Rattle.dst.specs.Unit.{sizes};
ghost use Rattle.dst.specs.Start.{sum};
ghost use Rattle.sound_reads.specs.Place.{place_of};
ghost use Rattle.sound_reads.specs.Steps.{byte_at, Inside};
ghost use Rattle.sound_reads.specs.Positions.{positions_for};

use dst::unit::unit_size;
use sound_reads::place::{Place, Positions};

// Positions of a block, which the walk passes at once.
const BLOCK: usize = 64;

// Lengths below this, 32 MiB, are small: the sizes of a block's units add up to a u32. Real frames are far smaller.
const SMALL: u32 = 33_554_432;

// A number that no length of the block exceeds: it has the bits of all of them. This loop and that of `block_size` have no branch, so that they
// are compiled to take several lengths at a time.
fn bound(block: &[u32; BLOCK]) -> u32
    ensures { (i : ℕ) → i < 64 → get_or block.now i 0 ≤ result }
{
    let mut most = 0;
    for &length in block {
        most |= length;
    }
    most
}

// The bytes of the units of a block whose lengths are small. It is `dst::unit::units` in 32 bits: a walk over 300,000 lengths takes 53
// microseconds, and 98 in 64 bits.
fn block_size(crc: bool, block: &[u32; BLOCK]) -> u32
    requires { (i : ℕ) → i < 64 → get_or block.now i 0 < 33554432 }
    ensures { result ≡ sum (sizes crc block.now) }
{
    let mut all: u32 = 0;
    for &length in block {
        all += unit_size(crc, length) as u32;
    }
    all
}

// The position after the blocks that end at or before a place of the sound, and the bytes from there to the place. A block with a length that
// is not small is not passed, nor is any after it.
fn past_blocks(crc: bool, lengths: &[u32], place: u64) -> Place
    ensures { (result.position ≤ length lengths.now) × (byte_at (sizes crc lengths.now) result ≡ place) }
{
    let mut position = 0;
    let mut within = place;
    let (blocks, _) = lengths.as_chunks::<BLOCK>();
    for block in blocks {
        if SMALL <= bound(block) {
            break;
        }
        let bytes = block_size(crc, block) as u64;
        if within < bytes {
            break;
        }
        within -= bytes;
        position += BLOCK;
    }
    Place { position, within }
}

// The position whose unit has the byte at a place of the sound.
pub fn locate(crc: bool, lengths: &[u32], place: u64) -> Place
    ensures { result ≡ place_of (sizes crc lengths.now) place }
{
    let start = past_blocks(crc, lengths, place);
    let mut within = start.within;
    for position in start.position..lengths.len() {
        let size = unit_size(crc, lengths[position]);
        if within < size {
            return Place { position, within };
        }
        within -= size;
    }
    Place {
        position: lengths.len(),
        within,
    }
}

// The positions whose units so many bytes from a place on touch.
pub(crate) fn touched(crc: bool, lengths: &[u32], place: Place, count: u64) -> Positions
    requires { Inside (sizes crc lengths.now) place }
    ensures { result ≡ positions_for (sizes crc lengths.now) (byte_at (sizes crc lengths.now) place) count }
{
    let first = place.position;
    let mut within = place.within;
    if count == 0 || lengths.len() <= first {
        return Positions { first: 0, end: 0 };
    }
    let mut left = count;
    for k in first..lengths.len() {
        let rest = unit_size(crc, lengths[k]) - within;
        if left <= rest {
            return Positions { first, end: k + 1 };
        }
        left -= rest;
        within = 0;
    }
    Positions {
        first,
        end: lengths.len(),
    }
}
