// A build. The words are those of `jangqeruz_verdict`.
ghost use Rattle.std.specs.Prelude.{◌≡◌};
ghost use Rattle.chunk.specs.Append.{overlay};
ghost use Rattle.words.specs.Inputs.{inputs_of_words};
ghost use Rattle.words.specs.Border.{words_fault};
ghost use Rattle.abi.specs.Build.{Exported};

use build_answer::answer::build_values;
use build_options::inputs::Lent;
use refusal::verdict::number_of;
use texts::pools::Pools;
use word_builds::build::build;

// As many of the values as there is room for.
fn put_values(out: &mut [u64], values: [u64; 3])
    ensures { out.new ≡ overlay out.old 0 values }
{
    let n = out.len().min(3);
    out[..n].copy_from_slice(&values[..n]);
}

// Header and trailer of a file. The number of the refusal is answered, 0 for none; `answer` gets the lengths of header, sound and trailer, or the refusal's detail
// and zeros, as many of the three as it has room for.
#[unsafe(no_mangle)]
pub extern "C" fn jangqeruz_build(
    words: &[u32],
    pool: &[u32],
    raw: &[u8],
    tracks: &[u32],
    markers: &[u32],
    comments: &[u32],
    callers: &[u32],
    lengths: &[u32],
    header: &mut [u8],
    trailer: &mut [u8],
    answer: &mut [u64],
) -> u64
    ensures { Exported (words_fault words.now) (inputs_of_words words.now pool.now raw.now tracks.now markers.now comments.now callers.now lengths.now)
        header.old header.new trailer.old trailer.new answer.old answer.new result }
{
    let lent = Lent {
        pools: Pools {
            text: pool,
            bytes: raw,
        },
        tracks,
        markers,
        comments,
        callers,
        lengths,
    };
    let built = build(words, &lent, header, trailer);
    put_values(answer, build_values(built));
    number_of(built) as u64
}
