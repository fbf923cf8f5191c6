// A program: the markers of the tracks' spans that are left in the range, in one pass over the tracks.
ghost use Rattle.std.specs.Prelude.{◌≡◌};
ghost use Rattle.chunk.specs.Append.{Appended};
ghost use Rattle.tree.specs.Tree.{bytes, each};
ghost use Rattle.markers.specs.Marker.{mark};
ghost use Rattle.tracks.specs.Track.{spans, clipped};
ghost use Rattle.track_markers.specs.Program.{marker, track_start, program};
ghost use Rattle.track_markers.specs.Pass.{stop_if, stop_before, stop_after, added_markers};
ghost use Rattle.markers.specs.declared.marker.MarkerText.TheVariants.{Empty};

use chunk::Cursor;
use markers::marker::{Marker, MarkerKind, MarkerText, Marking, mark};
use texts::pools::Pools;
use tracks::order::ProgramOptions;
use tracks::track::{Span, WORDS, span_of};

// How far spans were written, and the stop of the last one, if there is one, which is written when the next is known.
#[derive(Clone, Copy)]
struct Written {
    end: Cursor,
    stop: Option<u32>,
}

// The start of a span.
#[tactic(auto, unfolding(crate::specs::Program::track_start))]
fn track_start(titles: bool, s: Span) -> Marker
    ensures { result ≡ track_start titles s }
{
    Marker {
        frame: s.start,
        kind: MarkerKind::TrackStart,
        track_flags: 0,
        text: if titles {
            MarkerText::Title(s.title)
        } else {
            MarkerText::Empty
        },
    }
}

// A marker without flags and text.
fn plain(frame: u32, kind: MarkerKind) -> Marker
    ensures { result ≡ marker frame kind Empty }
{
    Marker {
        frame,
        kind,
        track_flags: 0,
        text: MarkerText::Empty,
    }
}

impl Written {
    // The last span's stop, if there is one.
    fn close(self, out: &mut [u8], pools: &Pools<'_>, how: Marking) -> Cursor
        ensures { Appended out.old self.end.at (bytes (each (mark pools.now.text.now pools.now.bytes.now how) (stop_if self.stop))) out.new result.at }
    {
        match self.stop {
            Some(stop) => mark(
                self.end,
                out,
                pools,
                how,
                plain(stop, MarkerKind::TrackStop),
            ),
            None => self.end,
        }
    }

    // One span more: the last one's stop unless this one starts there, and its start. Nothing of an empty one.
    fn add(self, out: &mut [u8], pools: &Pools<'_>, how: Marking, titles: bool, s: Span) -> Written
        ensures appended { Appended out.old self.end.at (bytes (each (mark pools.now.text.now pools.now.bytes.now how) (added_markers self.stop titles s))) out.new result.end.at }
        ensures stop_value { result.stop ≡ stop_after self.stop s }
    {
        if !s.has_frames() {
            return self;
        }
        let last = Written {
            end: self.end,
            stop: self.stop.filter(|stop| *stop != s.start),
        };
        let c = last.close(out, pools, how);
        Written {
            end: mark(c, out, pools, how, track_start(titles, s)),
            stop: Some(s.end),
        }
    }
}

// The markers of the tracks' spans that are left in the range.
pub(crate) fn program(
    c: Cursor,
    out: &mut [u8],
    pools: &Pools<'_>,
    tracks: &[u32],
    how: Marking,
    p: ProgramOptions,
) -> Cursor
    ensures { Appended out.old c.at
        (bytes (each (mark pools.now.text.now pools.now.bytes.now how) (program p.first p.titles (clipped p.first p.end (spans tracks.now)))))
        out.new result.at }
{
    let start = plain(p.first, MarkerKind::ProgramStart);
    let mut done = Written {
        end: mark(c, out, pools, how, start),
        stop: None,
    };
    for row in tracks.chunks_exact(WORDS) {
        let s = span_of(row).clip(p.first, p.end);
        done = done.add(out, pools, how, p.titles, s);
    }
    done.close(out, pools, how)
}
