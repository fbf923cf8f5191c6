// The artist and the title of DIIN: the chunks DIAR and DITI.
ghost use Rattle.std.specs.Prelude.{◌++◌};
ghost use Rattle.chunk.specs.Append.{Appended};
ghost use Rattle.chunk.specs.Number.{be};
ghost use Rattle.texts.specs.Extent.{part};
ghost use Rattle.texts.specs.Text.{text_bytes, text_pad};
ghost use Rattle.diin_texts.specs.DiinText.{diin_text, given_text_bytes};

use chunk::Cursor;
use texts::extent::Extent;
use texts::text::{TextOptions, counted_text, text_count, text_pad};

// DIAR or DITI, by its name. A text that is given, though empty, is present.
pub fn diin_text(
    c: Cursor,
    out: &mut [u8],
    id: [u8; 4],
    pool: &[u32],
    text: Option<Extent>,
    options: TextOptions,
) -> Cursor
    ensures { Appended out.old c.at (diin_text id pool.now text options) out.new result.at }
{
    match text {
        Some(given) => given_text(c, out, id, pool, given, options),
        None => c,
    }
}

// The same of a text that is given.
fn given_text(
    c: Cursor,
    out: &mut [u8],
    id: [u8; 4],
    pool: &[u32],
    text: Extent,
    options: TextOptions,
) -> Cursor
    ensures { Appended out.old c.at (given_text_bytes id (text_bytes options.rule (part pool.now text)) options) out.new result.at }
{
    let count = text_count(options.rule, pool, text);
    if !options.writes(count) {
        return c;
    }
    c.chunk_of(out, id, |c, out| {
        diin_text_data(c, out, count, pool, text, options)
    })
}

// The data: the count, the text, and its pad if that is counted.
fn diin_text_data(
    c: Cursor,
    out: &mut [u8],
    count: u32,
    pool: &[u32],
    text: Extent,
    options: TextOptions,
) -> Cursor
    ensures { Appended out.old c.at
        (be 4 count ++ text_bytes options.rule (part pool.now text) ++ text_pad options count)
        out.new result.at }
{
    let c = counted_text(c, out, count, options.rule, pool, text);
    text_pad(c, out, count, options)
}
