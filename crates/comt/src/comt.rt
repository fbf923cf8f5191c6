// The comments of a file: the chunk COMT.
ghost use Rattle.std.specs.Prelude.{◌≡◌, length};
ghost use mathlib.Core.List.{◌++◌, flat_map};
ghost use Rattle.chunk.specs.Append.{Appended};
ghost use Rattle.chunk.specs.Number.{be};
ghost use Rattle.chunk.specs.Chunk.{pad};
ghost use Rattle.texts.specs.Extent.{part};
ghost use Rattle.texts.specs.Text.{text_bytes};
ghost use Rattle.comt.specs.Comment.{comment_of, reference_of, comment_head, written_comment, written_comments, comment_bytes, comt};

use chunk::Cursor;
use texts::extent::Extent;
use texts::text::{TextOptions, TextRule, counted_text, text_count};

// The words of a comment's row: year, month, day, hour, minutes, kind, reference, text start, text length.
pub const WORDS: usize = 9;

// What the count of COMT can tell (refusal 36).
const MOST_COMMENTS: usize = 65_535;

#[derive(Clone, Copy)]
pub struct Comment {
    pub year: u32,
    pub month: u32,
    pub day: u32,
    pub hour: u32,
    pub minutes: u32,
    pub kind: u32, // 0 general, 1 channel, 2 sound source, 3 file history; as told, since 35 has to see any other
    pub reference: u32,
    pub text: Extent,
}

// The comment of a row; a word that the row hasn't is 0.
#[tactic(auto, unfolding(crate::specs::Comment::comment_of))]
pub fn comment_of(row: &[u32]) -> Comment
    ensures { result ≡ comment_of row.now }
{
    let word = |k: usize| row.get(k).copied().unwrap_or(0);
    Comment {
        year: word(0),
        month: word(1),
        day: word(2),
        hour: word(3),
        minutes: word(4),
        kind: word(5),
        reference: word(6),
        text: Extent {
            start: word(7),
            length: word(8),
        },
    }
}

// The reference that a comment is written with: a general one has none.
fn reference(c: Comment) -> u32
    ensures { result ≡ reference_of c }
{
    if c.kind == 0 { 0 } else { c.reference }
}

// A comment's 10 bytes before its text. Of a number that passes its field, the low bytes: by division, since a cast that may lose bits is refused.
fn comment_head(c: Comment) -> [u8; 10]
    ensures { result ≡ comment_head c }
{
    let reference = reference(c);
    [
        (c.year / 256 % 256) as u8,
        (c.year % 256) as u8,
        (c.month % 256) as u8,
        (c.day % 256) as u8,
        (c.hour % 256) as u8,
        (c.minutes % 256) as u8,
        (c.kind / 256 % 256) as u8,
        (c.kind % 256) as u8,
        (reference / 256 % 256) as u8,
        (reference % 256) as u8,
    ]
}

// COMT, or nothing if there is no comment to write, or more than its count can tell.
pub fn comt(c: Cursor, out: &mut [u8], pool: &[u32], rows: &[u32], options: TextOptions) -> Cursor
    ensures { Appended out.old c.at (comt pool.now rows.now options) out.new result.at }
{
    let count = comments_count(pool, rows, options);
    if !((count != 0) & (count <= MOST_COMMENTS)) {
        return c;
    }
    let told = count as u16;
    c.chunk_of(out, *b"COMT", |c, out| {
        comt_data(c, out, told, pool, rows, options)
    })
}

// The data: the count, and the comments.
fn comt_data(
    c: Cursor,
    out: &mut [u8],
    count: u16,
    pool: &[u32],
    rows: &[u32],
    options: TextOptions,
) -> Cursor
    ensures { Appended out.old c.at (be 2 count ++ flat_map comment_bytes (written_comments pool.now rows.now options)) out.new result.at }
{
    let c = c.be16(out, count);
    written_comments(c, out, pool, rows, options)
}

// How many comments are written, of all whole rows.
fn comments_count(pool: &[u32], rows: &[u32], options: TextOptions) -> usize
    ensures { result ≡ length (written_comments pool.now rows.now options) }
{
    let mut count = 0;
    for row in rows.chunks_exact(WORDS) {
        count += one_if_written(pool, comment_of(row), options);
    }
    count
}

// 1 if a comment is written, else 0.
fn one_if_written(pool: &[u32], c: Comment, options: TextOptions) -> usize
    ensures { result ≡ length (written_comment pool.now options c) }
{
    usize::from(options.writes(text_count(options.rule, pool, c.text)))
}

// The comments that are written, of all whole rows.
fn written_comments(
    c: Cursor,
    out: &mut [u8],
    pool: &[u32],
    rows: &[u32],
    options: TextOptions,
) -> Cursor
    ensures { Appended out.old c.at (flat_map comment_bytes (written_comments pool.now rows.now options)) out.new result.at }
{
    let mut c = c;
    for row in rows.chunks_exact(WORDS) {
        c = written_comment(c, out, pool, comment_of(row), options);
    }
    c
}

// A comment, if it is written.
fn written_comment(
    p: Cursor,
    out: &mut [u8],
    pool: &[u32],
    c: Comment,
    options: TextOptions,
) -> Cursor
    ensures { Appended out.old p.at (flat_map comment_bytes (written_comment pool.now options c)) out.new result.at }
{
    let count = text_count(options.rule, pool, c.text);
    if options.writes(count) {
        comment_bytes(p, out, count, pool, c, options.rule)
    } else {
        p
    }
}

// A comment with its text and the pad after an odd one.
fn comment_bytes(
    p: Cursor,
    out: &mut [u8],
    count: u32,
    pool: &[u32],
    c: Comment,
    rule: TextRule,
) -> Cursor
    ensures { Appended out.old p.at (comment_head c ++ (be 4 count ++ text_bytes rule (part pool.now c.text)) ++ pad count) out.new result.at }
{
    let p = p.bytes(out, &comment_head(c));
    let p = counted_text(p, out, count, rule, pool, c.text);
    p.pad(out, count as u64)
}
