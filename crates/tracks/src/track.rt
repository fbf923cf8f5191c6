// Tracks: rows of words, and the spans of frames that they cover.
ghost use Rattle.std.specs.Prelude.{◌≡◌, ◌<◌, ◌/◌, min, max, length};
ghost use Rattle.tracks.specs.Track.{span_of, span_at, track_span, clip, has_frames};

use texts::extent::Extent;

// The words of a track's row: start, duration, title start, title length.
pub const WORDS: usize = 4;

// Frames from a start to an end, with the title of their track.
#[derive(Clone, Copy)]
pub struct Span {
    pub start: u32,
    pub end: u32,
    pub title: Extent,
}

// The span of a row; a word that the row hasn't is 0. An end that passes a u32 is the largest one.
#[tactic(auto, unfolding(crate::specs::Track::span_of))]
pub fn span_of(row: &[u32]) -> Span
    ensures { result ≡ span_of row.now }
{
    let word = |k: usize| row.get(k).copied().unwrap_or(0);
    Span {
        start: word(0),
        end: word(0).saturating_add(word(1)),
        title: Extent {
            start: word(2),
            length: word(3),
        },
    }
}

impl Span {
    // What is left of it between two frames.
    pub fn clip(self, first: u32, end: u32) -> Span
        ensures { result ≡ clip first end self }
    {
        Span {
            start: first.max(self.start),
            end: end.min(self.end),
            title: self.title,
        }
    }

    pub fn has_frames(self) -> bool
        ensures { result ≡ has_frames self }
    {
        self.start < self.end
    }
}

// The span of track i, counted from 0.
pub(crate) fn span_at(tracks: &[u32], i: usize) -> Span
    requires { i < length tracks.now / 4 }
    ensures { result ≡ span_at tracks.now i }
{
    let at = i * WORDS;
    span_of(&tracks[at..at + WORDS])
}

// The span of track i, counted from 0; an empty one if there is no such track.
pub fn track_span(tracks: &[u32], i: usize) -> Span
    ensures { result ≡ track_span tracks.now i }
{
    if i < tracks.len() / WORDS {
        span_at(tracks, i)
    } else {
        Span {
            start: 0,
            end: 0,
            title: Extent {
                start: 0,
                length: 0,
            },
        }
    }
}
