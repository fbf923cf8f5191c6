// The verdict on the inputs of a build. The single values are words, each at its own place, as Inputs.antt of the crate words and the names of the header (WORD_..) list them. What is wrong with the words themselves is
// refused first (Border.antt there): their number, a word that its field cannot hold, a number that names nothing. A switch is on if its word is not 0.
ghost use Rattle.std.specs.Prelude.{◌≡◌};
ghost use Rattle.checks.specs.InputVerdict.{verdict};
ghost use Rattle.refusal.specs.Verdict.{or_else};
ghost use Rattle.words.specs.Border.{words_fault};
ghost use Rattle.words.specs.Inputs.{inputs_of_words};
ghost use Rattle.abi.specs.Verdict.{answer};

use build_options::inputs::Lent;
use refusal::verdict::{Verdict, detail_of, number_of};
use texts::pools::Pools;
use words::verdict::verdict;

fn answer(v: Verdict) -> u64
    ensures { result ≡ answer v }
{
    number_of(v) as u64 * 0x1_0000_0000 + detail_of(v) % 0x1_0000_0000
}

// The number of the refusal, 0 for none, times 2^32, and the low 32 bits of its detail. The tracks, markers, comments and caller's chunks are rows of
// words, the lengths those of the DST frames. EMID, the texts of markers and the caller's chunks are bytes of `raw`, the other texts values of `pool`.
#[unsafe(no_mangle)]
pub extern "C" fn jangqeruz_verdict(
    words: &[u32],
    pool: &[u32],
    raw: &[u8],
    tracks: &[u32],
    markers: &[u32],
    comments: &[u32],
    callers: &[u32],
    lengths: &[u32],
) -> u64
    ensures { result ≡ answer (or_else (words_fault words.now) (verdict (inputs_of_words words.now pool.now raw.now
        tracks.now markers.now comments.now callers.now lengths.now))) }
{
    let lent = Lent {
        pools: Pools {
            text: pool,
            bytes: raw,
        },
        tracks,
        markers,
        comments,
        callers,
        lengths,
    };
    answer(verdict(words, &lent))
}
