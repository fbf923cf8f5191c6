// verdict.rt of abi, for C.
ghost use Rattle.std.specs.Prelude.{◌≡◌};
ghost use Rattle.checks.specs.InputVerdict.{verdict};
ghost use Rattle.refusal.specs.Verdict.{or_else};
ghost use Rattle.words.specs.Border.{words_fault};
ghost use Rattle.words.specs.Inputs.{inputs_of_words};
ghost use Rattle.abi.specs.Verdict.{answer};

#[unsafe(no_mangle)]
pub extern "C" fn jangqeruz_verdict(
    words: &[u32],
    pool: &[u32],
    raw: &[u8],
    tracks: &[u32],
    markers: &[u32],
    comments: &[u32],
    callers: &[u32],
    lengths: &[u32],
) -> u64
    ensures { result ≡ answer (or_else (words_fault words.now) (verdict (inputs_of_words words.now pool.now raw.now
        tracks.now markers.now comments.now callers.now lengths.now))) }
{
    abi::verdict::jangqeruz_verdict(
        words, pool, raw, tracks, markers, comments, callers, lengths,
    )
}
