// 4 and 5: the names of caller chunks.
ghost use Rattle.std.specs.Prelude.{◌≡◌};
ghost use Rattle.chunk.specs.Number.{be};
ghost use Rattle.faults.specs.Caller.{space_then_more, is_no_name, name_fault, caller_faults};

use chunk_names::is_reserved;
use refusal::verdict::{Refusal, Verdict, refuse_if};
use rows::row::word;
use texts::text::printable;

// The words of a caller chunk's row: name, start, length.
const WORDS: usize = 3;

const SPACE: u8 = 0x20;

// The four bytes of a name that is given as one number.
pub fn name_of(word: u32) -> [u8; 4]
    ensures { result ≡ be 4 word }
{
    word.to_be_bytes()
}

fn space_then_more(a: u8, b: u8) -> bool
    ensures { result ≡ space_then_more a b }
{
    (a == SPACE) & (b != SPACE)
}

// Whether four bytes are no name: a byte is no text byte, or a space stands before another byte.
fn is_no_name(name: [u8; 4]) -> bool
    ensures { result ≡ is_no_name name }
{
    let [a, b, c, d] = name;
    let text = printable(a as u32)
        & (printable(b as u32) & (printable(c as u32) & printable(d as u32)));
    let spaced = space_then_more(a, b) | (space_then_more(b, c) | space_then_more(c, d));
    !text | spaced
}

// 4 and 5 of one name.
fn name_fault(name: [u8; 4]) -> Verdict
    ensures { result ≡ name_fault name }
{
    refuse_if(is_no_name(name), Refusal::CallerName)?;
    refuse_if(is_reserved(name), Refusal::ReservedName)
}

// The first caller chunk at fault.
pub fn caller_faults(callers: &[u32]) -> Verdict
    ensures { result ≡ caller_faults callers.now }
{
    for row in callers.chunks_exact(WORDS) {
        name_fault(name_of(word(row, WORDS, 0, 0)))?;
    }
    Ok(())
}
