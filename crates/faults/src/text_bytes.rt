// Bytes that a text of the file can't have (31, 33).
ghost use Rattle.std.specs.Prelude.{◌≡◌};
ghost use Rattle.texts.specs.Extent.{part};
ghost use Rattle.faults.specs.TextBytes.{has_no_text};

use texts::extent::Extent;
use texts::text::{TextRule, passes};

// Whether one of the bytes does not pass as itself.
fn has_no_text(rule: TextRule, bytes: &[u8]) -> bool
    ensures { result ≡ has_no_text rule bytes.now }
{
    let mut found = false;
    for byte in bytes {
        found |= !passes(rule, *byte as u32);
    }
    found
}

// The same of a part of the byte pool.
pub fn part_has_no_text(rule: TextRule, raw: &[u8], e: Extent) -> bool
    ensures { result ≡ has_no_text rule (part raw.now e) }
{
    has_no_text(rule, &raw[e.first(raw.len())..e.end(raw.len())])
}
