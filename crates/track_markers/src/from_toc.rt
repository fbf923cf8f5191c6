// The markers that are made from tracks.
ghost use Rattle.std.specs.Prelude.{◌≤◌};
ghost use Rattle.chunk.specs.Append.{Appended};
ghost use Rattle.tree.specs.Tree.{bytes, each};
ghost use Rattle.markers.specs.Marker.{mark};
ghost use Rattle.tracks.specs.Track.{spans};
ghost use Rattle.track_markers.specs.Program.{source_markers, from_toc};

use crate::program::program;
use chunk::Cursor;
use markers::marker::Marking;
use texts::pools::Pools;
use tracks::order::{ProgramOptions, clipped_order, has_program};
use tracks::track::WORDS;

// The markers of a source track.
fn from_source(
    c: Cursor,
    out: &mut [u8],
    pools: &Pools<'_>,
    tracks: &[u32],
    how: Marking,
    p: ProgramOptions,
) -> Cursor
    requires { 1 ≤ p.source_track }
    ensures { Appended out.old c.at
        (bytes (each (mark pools.now.text.now pools.now.bytes.now how) (source_markers p (spans tracks.now))))
        out.new result.at }
{
    let number = p.source_track as usize;
    if tracks.len() / WORDS < number {
        return c;
    }
    let at = (number - 1) * WORDS;
    let track = &tracks[at..at + WORDS];
    let left = clipped_order(track, p.first, p.end).left;
    if p.source_track_markers && left {
        program(c, out, pools, track, how, p)
    } else {
        c
    }
}

// The markers that are made from tracks.
pub fn from_toc(
    c: Cursor,
    out: &mut [u8],
    pools: &Pools<'_>,
    tracks: &[u32],
    how: Marking,
    p: ProgramOptions,
) -> Cursor
    ensures { Appended out.old c.at
        (bytes (each (mark pools.now.text.now pools.now.bytes.now how) (from_toc p (spans tracks.now))))
        out.new result.at }
{
    if p.source_track != 0 {
        from_source(c, out, pools, tracks, how, p)
    } else if has_program(tracks, p) {
        program(c, out, pools, tracks, how, p)
    } else {
        c
    }
}
