// A frame's unit: its DSTF chunk and, with CRC on, its DSTC chunk. Sums of sizes stop at the largest u64, which says that they do not fit.
ghost use Rattle.std.specs.Prelude.{◌≡◌, ◌-◌, ◌^◌, ◌≤◌, min, length};
ghost use Rattle.chunk.specs.Append.{moved};
ghost use Rattle.dst.specs.Unit.{unit_size, sizes};
ghost use Rattle.dst.specs.Start.{sum, start};
ghost use Rattle.dst.specs.Head.{data_size};

use chunk::chunks::occupied;

// Bytes of a DSTC chunk, and of FRTE.
const DSTC: u64 = 16;

const FRTE: u64 = 18;

// The units of so many frames, however long, have fewer than 2^63 bytes.
const FEW: usize = 1_073_741_824;

// What a frame of so many DST bytes occupies.
pub fn unit_size(crc: bool, length: u32) -> u64
    ensures { result ≡ unit_size crc length }
{
    let dstf = occupied(length as u64);
    if crc { dstf + DSTC } else { dstf }
}

// The sound's length, of so few frames that the sum fits a u64: the loop has no test, and is compiled to take several lengths at a time. So
// 300,000 lengths take 98 microseconds, and 218 by `units_of_many`.
fn units_of_few(crc: bool, lengths: &[u32]) -> u64
    requires { length lengths.now ≤ 1_073_741_824 }
    ensures { result ≡ sum (sizes crc lengths.now) }
{
    let mut all = 0;
    for &length in lengths {
        all += unit_size(crc, length);
    }
    all
}

// The sound's length, of any number of frames.
fn units_of_many(crc: bool, lengths: &[u32]) -> u64
    ensures { result ≡ min (sum (sizes crc lengths.now)) (2 ^ 64 - 1) }
{
    let mut all: u64 = 0;
    for &length in lengths {
        all = all.saturating_add(unit_size(crc, length));
    }
    all
}

// The sound's length.
pub fn units(crc: bool, lengths: &[u32]) -> u64
    ensures { result ≡ min (sum (sizes crc lengths.now)) (2 ^ 64 - 1) }
{
    if lengths.len() <= FEW {
        units_of_few(crc, lengths)
    } else {
        units_of_many(crc, lengths)
    }
}

// Where the unit of position i starts in the sound.
pub fn start(crc: bool, lengths: &[u32], i: usize) -> u64
    ensures { result ≡ min (start (sizes crc lengths.now) i) (2 ^ 64 - 1) }
{
    units(crc, &lengths[..i.min(lengths.len())])
}

// FRTE and so many bytes of units.
pub(crate) fn with_frte(bytes: u64) -> u64
    ensures { result ≡ moved 18 bytes }
{
    bytes.saturating_add(FRTE)
}

// The data size of the DST chunk: FRTE and the units.
pub fn data_size(crc: bool, lengths: &[u32]) -> u64
    ensures { result ≡ data_size (sizes crc lengths.now) }
{
    with_frte(units(crc, lengths))
}
