// A long content made short: 32 words of 8 bytes that have the CRC of all words so far, then 32 halves of words, and in the end 32 bytes.
//
// Why it may be done. The polynomial P = x^32 + x^31 + x^4 + 1 has four terms. Bits are added without a carry, so that the square of a sum is
// the sum of the squares: of P the square has four terms too, and so have its square and each further one, P^w = x^32w + x^31w + x^4w + 1 for each
// power w of 2. P divides P^w. A unit is a run of w bits of the content, a later unit having lower powers of x. The same unit four times, at the powers
// 32w, 31w, 4w and 0, so 1, 28 and 32 units after the first, is a multiple of P^w and has the remainder 0: adding these four changes no CRC. It
// makes the first unit 0, and zeros in front change nothing, since the register starts at 0. So a unit may be left out if it is added to the units
// 1, 28 and 32 after it. How a u64 holds a unit's bytes makes no difference, as units are only added.
ghost use Rattle.std.specs.Prelude.{◌≡◌, ◌^◌, ◌<◌, length};
ghost use Rattle.std.specs.List.{concat};
ghost use Rattle.checksum.specs.Crc.{crc_of};
ghost use Rattle.checksum.specs.Steps.{Next, Pushed, Halved, ring_of};

// A word's bytes as a number, the first lowest.
fn word(bytes: &[u8; 8]) -> u64
    ensures { Next bytes.now 0 result }
{
    u64::from_le_bytes(*bytes)
}

// A unit more into a ring of 32, for the first of them, which is left out. The first stands at i % 32, and the next one is the first then.
fn push_unit(ring: &mut [u64; 32], i: usize, unit: u64)
    requires { i < 2 ^ 63 }
    ensures { Pushed ring.old i unit ring.new }
{
    let first = i % 32;
    let q = ring[first];
    ring[(i + 1) % 32] ^= q;
    ring[(i + 28) % 32] ^= q;
    ring[first] = unit ^ q;
}

// Words in a ring. The first of the 32 stands at their count % 32.
pub(crate) fn folded(words: &[[u8; 8]]) -> [u64; 32]
    ensures { ring_of 8 result (length words.now) ≡ crc_of (concat words.now) }
{
    let mut ring = [0u64; 32];
    for (i, bytes) in words.iter().enumerate() {
        push_unit(&mut ring, i, word(bytes));
    }
    ring
}

// The halves of the units of a ring, from place n on, in a ring of 32: of each the low half first, which is below `half`.
pub(crate) fn halved(units: &[u64; 32], n: usize, half: u64) -> [u64; 32]
    requires { (n < 2 ^ 63) × (0 < half) }
    ensures { Halved units.now n half result }
{
    let mut ring = [0u64; 32];
    for j in 0..32 {
        let unit = units[(n + j) % 32];
        push_unit(&mut ring, j * 2, unit % half);
        push_unit(&mut ring, j * 2 + 1, unit / half);
    }
    ring
}
