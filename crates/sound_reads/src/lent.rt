// What a read is lent, for the positions that it needs: their lengths, their DST bytes joined, and their plain contents joined.
ghost use Rattle.std.specs.Prelude.{◌≡◌, ◌-◌, ◌*◌, ◌^◌, min, cond, eqb, ltb};
ghost use Rattle.dst.specs.Start.{sum};
ghost use Rattle.sound_reads.specs.Lent.{is_lent};

use crate::place::Place;
use window::window::Window;

// The place after the sound of n positions in which the place sought was found, where the buffer is filled up to `at`: the sound's units are
// skipped, and past them what is left.
pub fn filled(at: usize, place: Place, n: usize) -> Window
    ensures { result ≡ record { at = at; skip = cond (ltb place.position n) 0 place.within } }
{
    let skip = if place.position < n { 0 } else { place.within };
    Window { at, skip }
}

// The bytes of frames of these lengths, joined.
fn joined(lengths: &[u32]) -> u64
    ensures { result ≡ min (sum lengths.now) (2 ^ 64 - 1) }
{
    let mut all: u64 = 0;
    for &length in lengths {
        all = all.saturating_add(length as u64);
    }
    all
}

// Whether so many bytes are n pieces of w bytes each.
fn is_times(bytes: usize, w: usize, n: usize) -> bool
    ensures { result ≡ eqb (w * n) bytes }
{
    w.checked_mul(n) == Some(bytes)
}

// Whether what is lent for positions of these lengths is theirs: the same lengths, as many DST bytes, and w bytes of content for each.
pub fn is_lent(needed: &[u32], lengths: &[u32], frames: &[u8], w: usize, contents: &[u8]) -> bool
    ensures { result ≡ is_lent w needed.now lengths.now frames.now contents.now }
{
    lengths == needed
        && joined(needed) == frames.len() as u64
        && is_times(contents.len(), w, needed.len())
}
