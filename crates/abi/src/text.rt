// Texts. A text is `length` values of `pool` from `start` on. What is written into `out` is what fits of it; the answer is the length of all of it.
ghost use Rattle.chunk.specs.Append.{Appended};
ghost use Rattle.texts.specs.Extent.{part};
ghost use Rattle.texts.specs.Text.{text_bytes};
ghost use Rattle.diin_texts.specs.DiinText.{diin_text};
ghost use Rattle.comt.specs.Comment.{comt};
ghost use Rattle.meanings.specs.Text.{rule_of, options_of, text_of};

use chunk::Cursor;
use comt::comt::comt;
use diin_texts::diin_text::diin_text;
use meanings::text::{options, rule, text};
use texts::extent::Extent;
use texts::text::text_bytes;

// A text's bytes.
#[unsafe(no_mangle)]
pub extern "C" fn jangqeruz_text_bytes(
    out: &mut [u8],
    pool: &[u32],
    start: u32,
    length: u32,
    rule_number: u8,
    replacement: u8,
) -> usize
    ensures { Appended out.old 0 (text_bytes (rule_of rule_number replacement) (part pool.now (record { start = start; length = length }))) out.new result }
{
    let rule = rule(rule_number, replacement);
    text_bytes(Cursor::new(), out, rule, pool, Extent { start, length }).at
}

// DIAR or DITI, by its name.
#[unsafe(no_mangle)]
pub extern "C" fn jangqeruz_diin_text(
    out: &mut [u8],
    id: &[u8; 4],
    pool: &[u32],
    given: bool,
    start: u32,
    length: u32,
    rule_number: u8,
    replacement: u8,
    empty_text: bool,
    text_pad_counted: bool,
) -> usize
    ensures { Appended out.old 0
        (diin_text id.now pool.now (text_of given start length)
        (options_of rule_number replacement empty_text text_pad_counted))
        out.new result }
{
    let options = options(rule_number, replacement, empty_text, text_pad_counted);
    let text = text(given, start, length);
    diin_text(Cursor::new(), out, *id, pool, text, options).at
}

// COMT, of rows of nine words.
#[unsafe(no_mangle)]
pub extern "C" fn jangqeruz_comt(
    out: &mut [u8],
    pool: &[u32],
    rows: &[u32],
    rule_number: u8,
    replacement: u8,
    empty_text: bool,
    text_pad_counted: bool,
) -> usize
    ensures { Appended out.old 0
        (comt pool.now rows.now
        (options_of rule_number replacement empty_text text_pad_counted))
        out.new result }
{
    let options = options(rule_number, replacement, empty_text, text_pad_counted);
    comt(Cursor::new(), out, pool, rows, options).at
}
