// The caller's chunks: rows of a name and the extent of the data in the byte pool.
ghost use Rattle.std.specs.Prelude.{◌≡◌};
ghost use Rattle.chunk.specs.Append.{Appended};
ghost use Rattle.tree.specs.Tree.{bytes};
ghost use Rattle.caller_chunks.specs.Caller.{caller_chunk, caller_chunks};

use chunk::Cursor;
use faults::caller::name_of;
use texts::extent::Extent;

// Words a row.
const WORDS: usize = 3;

// The chunk of a row; a word that the row hasn't is 0.
fn caller_chunk(c: Cursor, out: &mut [u8], raw: &[u8], row: &[u32]) -> Cursor
    ensures { Appended out.old c.at (bytes (caller_chunk raw.now row.now)) out.new result.at }
{
    let word = |k: usize| row.get(k).copied().unwrap_or(0);
    let name = name_of(word(0));
    let data = Extent {
        start: word(1),
        length: word(2),
    };
    c.chunk(out, name, &raw[data.first(raw.len())..data.end(raw.len())])
}

// The chunks of all whole rows.
pub fn caller_chunks(c: Cursor, out: &mut [u8], raw: &[u8], callers: &[u32]) -> Cursor
    ensures { Appended out.old c.at (bytes (caller_chunks raw.now callers.now)) out.new result.at }
{
    let mut c = c;
    for row in callers.chunks_exact(WORDS) {
        c = caller_chunk(c, out, raw, row);
    }
    c
}
