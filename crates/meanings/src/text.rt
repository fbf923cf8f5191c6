// The numbers of texts.
ghost use Rattle.std.specs.Prelude.{◌≡◌};
ghost use Rattle.meanings.specs.Text.{rule_of, options_of, text_of};

use texts::extent::Extent;
use texts::text::{TextOptions, TextRule};

// 0 replaces by a byte, 1 removes, any other is D2.
pub fn rule(number: u8, replacement: u8) -> TextRule
    ensures { result ≡ rule_of number replacement }
{
    match number {
        0 => TextRule::Replace(replacement),
        1 => TextRule::Remove,
        _ => TextRule::D2,
    }
}

pub fn options(
    rule_number: u8,
    replacement: u8,
    empty_text: bool,
    text_pad_counted: bool,
) -> TextOptions
    ensures { result ≡ options_of rule_number replacement empty_text text_pad_counted }
{
    TextOptions {
        rule: rule(rule_number, replacement),
        empty_text,
        text_pad_counted,
    }
}

// A text that may be missing.
pub fn text(given: bool, start: u32, length: u32) -> Option<Extent>
    ensures { result ≡ text_of given start length }
{
    given.then_some(Extent { start, length })
}
