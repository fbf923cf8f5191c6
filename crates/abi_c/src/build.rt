// build.rt of abi, for C.
ghost use Rattle.words.specs.Inputs.{inputs_of_words};
ghost use Rattle.words.specs.Border.{words_fault};
ghost use Rattle.abi.specs.Build.{Exported};

#[unsafe(no_mangle)]
pub extern "C" fn jangqeruz_build(
    words: &[u32],
    pool: &[u32],
    raw: &[u8],
    tracks: &[u32],
    markers: &[u32],
    comments: &[u32],
    callers: &[u32],
    lengths: &[u32],
    header: &mut [u8],
    trailer: &mut [u8],
    answer: &mut [u64],
) -> u64
    ensures { Exported (words_fault words.now) (inputs_of_words words.now pool.now raw.now tracks.now markers.now comments.now callers.now lengths.now)
        header.old header.new trailer.old trailer.new answer.old answer.new result }
{
    abi::build::jangqeruz_build(
        words, pool, raw, tracks, markers, comments, callers, lengths, header, trailer, answer,
    )
}
