// 18: the tracks of an edited master are not short.
ghost use Rattle.std.specs.Prelude.{◌≡◌};
ghost use Rattle.rows.specs.Durations.{short_tracks};

use crate::row::word;
use refusal::verdict::{Refusal, Verdict, refuse_if};

// The words of a track's row: start, duration, title start, title length.
const WORDS: usize = 4;

const SHORTEST: u32 = 75;

// The first track under 75 frames; the detail is its number.
pub fn short_tracks(tracks: &[u32]) -> Verdict
    ensures { result ≡ short_tracks tracks.now }
{
    for (k, row) in tracks.chunks_exact(WORDS).enumerate() {
        let short = word(row, WORDS, 0, 1) < SHORTEST;
        refuse_if(
            short,
            Refusal::ShortTrack {
                track: k as u64 + 1,
            },
        )?;
    }
    Ok(())
}
