// Text: Unicode values of a lent pool, written as bytes.
ghost use Rattle.std.specs.Prelude.{◌≡◌, ◌++◌, length};
ghost use Rattle.chunk.specs.Append.{Appended};
ghost use Rattle.chunk.specs.Number.{be};
ghost use Rattle.texts.specs.Extent.{part};
ghost use Rattle.texts.specs.Text.{printable, latin1, passes, substitute, text_byte, text_bytes, text_pad, is_written};

use crate::extent::Extent;
use chunk::Cursor;

// What becomes of a value that is no text byte.
#[derive(Clone, Copy)]
pub enum TextRule {
    Replace(u8), // this byte stands for it
    Remove, // it vanishes
    D2, // departure D2: ISO 8859-1 passes, any other value vanishes
}

// The options of texts that have a count.
#[derive(Clone, Copy)]
pub struct TextOptions {
    pub rule: TextRule,
    pub empty_text: bool, // whether a text without bytes is written
    pub text_pad_counted: bool, // whether the pad after a text is inside the chunk's size
}

impl TextOptions {
    // Whether a text of so many bytes is written.
    #[tactic(auto, unfolding(crate::specs::Text::is_written))]
    pub fn writes(self, count: u32) -> bool
        ensures { result ≡ is_written self count }
    {
        self.empty_text || count != 0
    }
}

// Whether a value is a text byte: 0x20 to 0x7E.
#[tactic(auto, using(std::proofs::lemmas::Bool::Decides::nat_tests), unfolding(crate::specs::Text::printable))]
pub fn printable(c: u32) -> bool
    ensures { result ≡ printable c }
{
    matches!(c, 0x20..=0x7E)
}

// Whether D2 writes a value: 0x20 to 0x7E or 0xA0 to 0xFF.
#[tactic(auto, using(std::proofs::lemmas::Bool::Decides::nat_tests), unfolding(crate::specs::Text::latin1))]
fn latin1(c: u32) -> bool
    ensures { result ≡ latin1 c }
{
    printable(c) || matches!(c, 0xA0..=0xFF)
}

// Whether a value is written as itself.
#[tactic(auto, unfolding(crate::specs::Text::passes))]
pub fn passes(rule: TextRule, c: u32) -> bool
    ensures { result ≡ passes rule c }
{
    match rule {
        TextRule::Replace(_) | TextRule::Remove => printable(c),
        TextRule::D2 => latin1(c),
    }
}

// How many bytes a text is written as.
pub fn text_count(rule: TextRule, pool: &[u32], text: Extent) -> u32
    ensures { result ≡ length (text_bytes rule (part pool.now text)) }
{
    text_bytes(Cursor::new(), &mut [], rule, pool, text).at as u32
}

// A text's bytes.
pub fn text_bytes(c: Cursor, out: &mut [u8], rule: TextRule, pool: &[u32], text: Extent) -> Cursor
    ensures { Appended out.old c.at (text_bytes rule (part pool.now text)) out.new result.at }
{
    let part = &pool[text.first(pool.len())..text.end(pool.len())];
    text_values(c, out, rule, part)
}

// A text with its count, which the caller has measured.
pub fn counted_text(
    c: Cursor,
    out: &mut [u8],
    count: u32,
    rule: TextRule,
    pool: &[u32],
    text: Extent,
) -> Cursor
    ensures { Appended out.old c.at (be 4 count ++ text_bytes rule (part pool.now text)) out.new result.at }
{
    text_bytes(c.be32(out, count), out, rule, pool, text)
}

// The pad after a text of so many bytes, if it is counted.
#[tactic(auto, using(chunk::proofs::AppendLaws::none), unfolding(crate::specs::Text::text_pad))]
pub fn text_pad(c: Cursor, out: &mut [u8], count: u32, options: TextOptions) -> Cursor
    ensures { Appended out.old c.at (text_pad options count) out.new result.at }
{
    if options.text_pad_counted {
        c.pad(out, count as u64)
    } else {
        c
    }
}

// The bytes of values, one value after the other.
fn text_values(mut c: Cursor, out: &mut [u8], rule: TextRule, values: &[u32]) -> Cursor
    ensures { Appended out.old c.at (text_bytes rule values.now) out.new result.at }
{
    for value in values {
        c = text_byte(c, out, rule, *value);
    }
    c
}

// One value: one byte or none.
#[tactic(auto, using(crate::proofs::TextLaws::passes_byte), unfolding(crate::specs::Text::text_byte))]
fn text_byte(c: Cursor, out: &mut [u8], rule: TextRule, value: u32) -> Cursor
    ensures { Appended out.old c.at (text_byte rule value) out.new result.at }
{
    if passes(rule, value) {
        c.byte(out, value as u8)
    } else {
        substitute(c, out, rule)
    }
}

// What stands for a value that does not pass.
#[tactic(auto, using(chunk::proofs::AppendLaws::none), unfolding(crate::specs::Text::substitute))]
fn substitute(c: Cursor, out: &mut [u8], rule: TextRule) -> Cursor
    ensures { Appended out.old c.at (substitute rule) out.new result.at }
{
    match rule {
        TextRule::Replace(b) => c.byte(out, b),
        TextRule::Remove | TextRule::D2 => c,
    }
}
