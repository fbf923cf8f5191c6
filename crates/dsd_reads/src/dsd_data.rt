// DSD sound: the plain contents of its positions.
ghost use Rattle.std.specs.Prelude.{◌≡◌, ◌*◌, ◌^◌, ◌<◌, eqb, length, replicate};
ghost use Rattle.dst.specs.Frame.{frame_bytes, dsd_sound};
ghost use Rattle.sound_reads.specs.Place.{place_of};
ghost use Rattle.sound_reads.specs.Steps.{byte_at, Inside};
ghost use Rattle.sound_reads.specs.Positions.{positions_for, number};
ghost use Rattle.sound_reads.specs.Fill.{Filling};
ghost use Rattle.sound_reads.specs.Lent.{needed_at, contents_with};

use dst::frame::frame_bytes;
use sound_reads::lent::filled;
use sound_reads::place::{Place, Positions};
use window::window::Window;

// The position that has the byte at a place of the sound, of n frames of so many bytes.
fn locate(frame: u64, n: u64, place: u64) -> Place
    requires { frame * n < 2 ^ 63 }
    ensures { result ≡ place_of (replicate n frame) place }
{
    let all = frame * n;
    if all <= place {
        Place {
            position: n as usize,
            within: place - all,
        }
    } else {
        Place {
            position: (place / frame) as usize,
            within: place % frame,
        }
    }
}

// The positions that so many bytes from a place on touch.
fn touched(frame: u64, n: u64, place: Place, count: u64) -> Positions
    requires { Inside (replicate n frame) place }
    ensures { result ≡ positions_for (replicate n frame) (byte_at (replicate n frame) place) count }
{
    let first = place.position;
    if count == 0 || n <= first as u64 {
        return Positions { first: 0, end: 0 };
    }
    let rest = frame - place.within;
    // How many of the positions after the first the bytes reach.
    let later = count
        .saturating_sub(rest)
        .div_ceil(frame)
        .min(n - first as u64 - 1);
    Positions {
        first,
        end: first + 1 + later as usize,
    }
}

// The positions that a read of so many bytes from a place of the sound on needs: the first that it touches and one past the last, 0 and 0 for
// none.
pub fn positions(channels: u8, n: u32, from: u64, count: u64) -> Positions
    ensures { result ≡ positions_for (replicate n (frame_bytes channels)) from count }
{
    let frame = frame_bytes(channels) as u64;
    let place = locate(frame, n as u64, from);
    touched(frame, n as u64, place, count)
}

// Fills the rest of `out` with the sound of a file of n positions, after what w skips of it. Lent are the plain contents of the needed
// positions, joined. The answer is the place after the sound, or none if what is lent does not have the length that it should: then nothing is
// written.
pub fn fill(out: &mut [u8], w: Window, channels: u8, n: u32, contents: &[u8]) -> Option<Window>
    ensures { Filling
        (eqb (frame_bytes channels * number (needed_at (replicate n (frame_bytes channels)) w out.old)) (length contents.now))
        (dsd_sound (contents_with (frame_bytes channels) (needed_at (replicate n (frame_bytes channels)) w out.old) n contents.now))
        w out.old out.new result }
{
    let frame = frame_bytes(channels);
    let place = locate(frame as u64, n as u64, w.skip);
    let free = out.len().saturating_sub(w.at);
    let Positions { first, end } = touched(frame as u64, n as u64, place, free as u64);
    if frame * (end - first) != contents.len() {
        return None;
    }
    let begin = Window {
        at: w.at,
        skip: place.within,
    };
    let v = begin.put(out, contents);
    Some(filled(v.at, place, n as usize))
}
