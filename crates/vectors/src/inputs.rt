// The inputs of a build, and the build.
use crate::lists::first;
use build_answer::answer::Answer;
use build_options::inputs::Lent;
use texts::pools::Pools;

// How many words a build has before its lists.
const WORDS: usize = 67;

#[derive(Clone, Copy)]
pub struct Inputs<'a> {
    pub words: &'a [u32],
    pub lent: Lent<'a>,
}

impl<'a> Inputs<'a> {
    // The words, with the lists behind them, and the byte pool.
    pub(crate) fn new(rows: &'a [u32], bytes: &'a [u8]) -> Inputs<'a> {
        let (words, rows) = rows.split_at_checked(WORDS).unwrap_or_default();
        let (text, rows) = first(rows);
        let (tracks, rows) = first(rows);
        let (markers, rows) = first(rows);
        let (comments, rows) = first(rows);
        let (callers, rows) = first(rows);
        let (lengths, _) = first(rows);
        Inputs {
            words,
            lent: Lent {
                pools: Pools { text, bytes },
                tracks,
                markers,
                comments,
                callers,
                lengths,
            },
        }
    }

    pub(crate) fn build(self, header: &mut [u8], trailer: &mut [u8]) -> Answer {
        word_builds::build::build(self.words, &self.lent, header, trailer)
    }
}
