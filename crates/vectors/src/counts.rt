// What is counted: refusals by their numbers, which are below 64, and from there on what else there is.
use crate::number::plus;

const ROOM: usize = 89;

#[derive(Clone, Copy)]
pub enum Count {
    Built = 64,
    Refused,
    BuildsAgree,
    Bytes, // of headers and trailers as recorded
    Short, // builds with a buffer that is one byte short, refused as they are to be
    Queries,
    QueriesAgree,
    Filled,
    NotFilled,
    ReadsAgree,
    FilledBytes, // as recorded
    Alone, // answers that are by document 01 alone
    BuiltDsd, // builds that are built, by the kind of sound
    BuiltDst,
    BuiltDstWithCrcs,
    WindowsDsd, // windows, likewise
    WindowsDst,
    WindowsDstWithCrcs,
    Custom, // builds with custom markers
    ByRecords, // of these, the ones that were built with records too
    RecordsAgree, // and those that were so as by rows
    WordsAtFault, // and why the others were not
    RowCutShort,
    NoSuchKind,
    TooMany,
}

#[derive(Drop)]
pub struct Counts {
    counts: [usize; ROOM],
}

impl Counts {
    pub(crate) fn new() -> Counts {
        Counts { counts: [0; ROOM] }
    }

    pub(crate) fn get(&self, k: Count) -> usize {
        self.counts[k as usize]
    }

    pub(crate) fn refusals(&self) -> &[usize] {
        &self.counts[..Count::Built as usize]
    }

    pub(crate) fn add(&mut self, k: Count, n: usize) {
        let k = k as usize;
        self.counts[k] = plus(self.counts[k], n);
    }

    // One more if it is so.
    pub(crate) fn add_if(&mut self, k: Count, is: bool) {
        if is {
            self.add(k, 1);
        }
    }

    // One more of this refusal.
    pub(crate) fn add_refusal(&mut self, number: u64) {
        if number < ROOM as u64 {
            let k = number as usize;
            self.counts[k] = plus(self.counts[k], 1);
        }
    }
}
