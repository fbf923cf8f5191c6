// Markers that are given, as rows of words.
ghost use Rattle.std.specs.Prelude.{◌≡◌};
ghost use Rattle.chunk.specs.Append.{Appended};
ghost use Rattle.tree.specs.Tree.{bytes, each};
ghost use Rattle.markers.specs.Marker.{mark};
ghost use Rattle.markers.specs.Custom.{kind_of, custom_of, customs};

use crate::marker::{Marker, MarkerKind, MarkerText, Marking, mark};
use chunk::Cursor;
use texts::extent::Extent;
use texts::pools::Pools;

// The words of a marker's row: frame, kind and flags in one, text start, text length.
const WORDS: usize = 4;

// The kind of a number; numbers that have none are an index.
#[tactic(auto, using(std::proofs::lemmas::Bool::Decides::nat_tests), unfolding(crate::specs::Custom::kind_of))]
fn kind_of(n: u32) -> MarkerKind
    ensures { result ≡ kind_of n }
{
    match n {
        0 => MarkerKind::TrackStart,
        1 => MarkerKind::TrackStop,
        2 => MarkerKind::ProgramStart,
        _ => MarkerKind::Index,
    }
}

// The marker of a row; a word that the row hasn't is 0.
#[tactic(auto, unfolding(crate::specs::Custom::custom_of))]
fn custom_of(row: &[u32]) -> Marker
    ensures { result ≡ custom_of row.now }
{
    let word = |k: usize| row.get(k).copied().unwrap_or(0);
    Marker {
        frame: word(0),
        kind: kind_of(word(1) / 0x1_0000),
        track_flags: (word(1) % 0x1_0000) as u16,
        text: MarkerText::Bytes(Extent {
            start: word(2),
            length: word(3),
        }),
    }
}

// The markers of all whole rows.
pub fn custom(c: Cursor, out: &mut [u8], pools: &Pools<'_>, rows: &[u32], how: Marking) -> Cursor
    ensures { Appended out.old c.at (bytes (each (mark pools.now.text.now pools.now.bytes.now how) (customs rows.now))) out.new result.at }
{
    let mut c = c;
    for row in rows.chunks_exact(WORDS) {
        c = mark(c, out, pools, how, custom_of(row));
    }
    c
}
