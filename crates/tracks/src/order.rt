// Whether tracks are in order, and give a program.
ghost use Rattle.std.specs.Prelude.{◌≡◌, map};
ghost use Rattle.tracks.specs.Track.{spans, clip, clipped, in_order, end_after, all_have_frames, exact, any_spans};
ghost use Rattle.tracks.specs.Order.{is_play_range, has_program};
ghost use Rattle.tracks.specs.Steps.{order_with};

use crate::track::{Span, WORDS, span_of};

// What decides the markers that are made from tracks.
#[derive(Clone, Copy)]
pub struct ProgramOptions {
    pub first: u32, // the range
    pub end: u32,
    pub playtime: u32,
    pub source_track: u16, // from 1 on, 0 for none
    pub source_track_markers: bool, // whether a source track gives markers
    pub clipped_program: bool, // whether a range that is not the play range does
    pub titles: bool, // whether a track's start has its title
}

// What is known of the first spans of a row, clipped to a range.
#[derive(Clone, Copy)]
pub struct Order {
    pub left: bool, // one is not empty
    pub whole: bool, // none is empty
    pub ordered: bool, // those that are not empty are in order and don't overlap
    pub end: u32, // of the last that is not empty, 0 if there is none
}

impl Order {
    // One span more.
    fn add(self, s: Span) -> Order
        ensures { result ≡ order_with self s }
    {
        if s.has_frames() {
            Order {
                left: true,
                ordered: self.ordered & (self.end <= s.start),
                end: s.end,
                ..self
            }
        } else {
            Order {
                whole: false,
                ..self
            }
        }
    }
}

// The order of the tracks' spans, clipped to a range.
pub fn clipped_order(tracks: &[u32], first: u32, end: u32) -> Order
    ensures left_value { result.left ≡ any_spans (clipped first end (spans tracks.now)) }
    ensures whole_value { result.whole ≡ all_have_frames (map (clip first end) (spans tracks.now)) }
    ensures ordered_value { result.ordered ≡ in_order 0 (clipped first end (spans tracks.now)) }
    ensures end_value { result.end ≡ end_after 0 (clipped first end (spans tracks.now)) }
{
    let mut o = Order {
        left: false,
        whole: true,
        ordered: true,
        end: 0,
    };
    for row in tracks.chunks_exact(WORDS) {
        o = o.add(span_of(row).clip(first, end));
    }
    o
}

// Whether the tracks' spans are not empty, in order, and don't overlap.
pub fn exact(tracks: &[u32]) -> bool
    ensures { result ≡ exact (spans tracks.now) }
{
    let o = clipped_order(tracks, 0, u32::MAX);
    o.whole & o.ordered
}

fn is_play_range(p: ProgramOptions) -> bool
    ensures { result ≡ is_play_range p }
{
    (p.first == 0) & (p.end == p.playtime)
}

// Whether tracks without a source track give a program.
pub fn has_program(tracks: &[u32], p: ProgramOptions) -> bool
    ensures { result ≡ has_program p (spans tracks.now) }
{
    let left = clipped_order(tracks, p.first, p.end);
    let allowed = if is_play_range(p) {
        exact(tracks)
    } else {
        p.clipped_program
    };
    left.left & (left.ordered & allowed)
}
