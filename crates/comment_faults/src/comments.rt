// 34 to 36: comments.
ghost use Rattle.std.specs.Prelude.{◌≡◌};
ghost use Rattle.comment_faults.specs.Comments.{date_wrong, most_reference, reference_wrong, is_written_comment, fault_of, comment_faults};

use comt::comt::{Comment, WORDS, comment_of};
use refusal::verdict::{Refusal, Verdict, refuse_if};
use texts::text::{TextOptions, text_count};

// What the count of COMT can tell.
const MOST_COMMENTS: usize = 65_535;

// Whether the time stamp is out of range.
fn date_wrong(c: Comment) -> bool
    ensures { result ≡ date_wrong c }
{
    (65_535 < c.year) | ((12 < c.month) | ((31 < c.day) | ((23 < c.hour) | (59 < c.minutes))))
}

// The largest reference of a kind that has one.
fn most_reference(kind: u32, channels: u8) -> u32
    ensures { result ≡ most_reference kind channels }
{
    match kind {
        1 => channels as u32,
        2 => 2,
        _ => 4,
    }
}

// Whether the reference is out of range, or the kind is none. A general comment's reference is not looked at.
fn reference_wrong(c: Comment, channels: u8) -> bool
    ensures { result ≡ reference_wrong c channels }
{
    c.kind != 0 && (3 < c.kind || most_reference(c.kind, channels) < c.reference)
}

// Whether it will be written.
fn is_written(c: Comment, pool: &[u32], options: TextOptions) -> bool
    ensures { result ≡ is_written_comment pool.now options c }
{
    options.writes(text_count(options.rule, pool, c.text))
}

// 34 to 36 of a comment, after so many that will be written.
fn fault_of(c: Comment, written: bool, before: usize, channels: u8) -> Verdict
    ensures { result ≡ fault_of channels c written before }
{
    refuse_if(date_wrong(c), Refusal::CommentDate)?;
    refuse_if(reference_wrong(c, channels), Refusal::CommentReference)?;
    refuse_if(written & (MOST_COMMENTS <= before), Refusal::CommentsCount)
}

// The first comment at fault.
pub fn comment_faults(comments: &[u32], pool: &[u32], options: TextOptions, channels: u8) -> Verdict
    ensures { result ≡ comment_faults comments.now pool.now options channels }
{
    let mut before = 0;
    for row in comments.chunks_exact(WORDS) {
        let c = comment_of(row);
        let written = is_written(c, pool, options);
        fault_of(c, written, before, channels)?;
        before += usize::from(written);
    }
    Ok(())
}
