// 32 and 33: markers that are given.
ghost use Rattle.std.specs.Prelude.{◌≡◌};
ghost use Rattle.faults.specs.Marks.{is_no_kind, kind_in, marker_fault, marker_faults};

use crate::text_bytes::part_has_no_text;
use refusal::verdict::{Refusal, Verdict, refuse_if};
use rows::row::{extent_at, word};
use texts::text::TextRule;

// The words of a marker's row: frame, kind and flags, text start, text length.
const WORDS: usize = 4;

// Whether a row's second word, kind · 65,536 + flags, has a kind that no marker has.
fn no_kind(word: u32) -> bool
    ensures { result ≡ is_no_kind (kind_in word) }
{
    !matches!(word / 0x1_0000, 0 | 1 | 2 | 4)
}

// 32 and 33 of the marker of a row: it lies outside the range or has no kind, or its text has a byte that no text has.
fn marker_fault(row: &[u32], raw: &[u8], rule: TextRule, first: u32, end: u32) -> Verdict
    ensures { result ≡ marker_fault row.now raw.now rule first end 0 }
{
    let frame = word(row, WORDS, 0, 0);
    let outside = (frame < first) | (end < frame);
    refuse_if(outside | no_kind(word(row, WORDS, 0, 1)), Refusal::Marker)?;
    let text = extent_at(row, WORDS, 0);
    refuse_if(part_has_no_text(rule, raw, text), Refusal::MarkerText)
}

// The first marker at fault.
pub fn marker_faults(markers: &[u32], raw: &[u8], rule: TextRule, first: u32, end: u32) -> Verdict
    ensures { result ≡ marker_faults markers.now raw.now rule first end }
{
    for row in markers.chunks_exact(WORDS) {
        marker_fault(row, raw, rule, first, end)?;
    }
    Ok(())
}
