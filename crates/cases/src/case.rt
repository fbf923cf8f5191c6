// What a case is lent, and the verdict on it.
use crate::fill::fill;
use crate::names::Target;
use crate::part::split_name;
use crate::{names, print};
use build_options::inputs::Lent;
use refusal::verdict::Verdict;
use std::alloc::{AllocError, Global};
use std::io;
use texts::pools::Pools;

pub const WORDS: usize = 67;

// Room for the words of a text of 1,048,577 values and a little more (65,537 comments have 589,833), in all lists together, and
// for a text of as many bytes.
const ROWS: usize = 1_048_700;

const BYTES: usize = 1_048_577;

// Its words and its lists, and how many words more the lists have room for.
#[derive(Drop)]
pub struct Case {
    pub words: [u32; WORDS],
    pool: Vec<u32>,
    raw: Vec<u32>,
    tracks: Vec<u32>,
    markers: Vec<u32>,
    comments: Vec<u32>,
    callers: Vec<u32>,
    lengths: Vec<u32>,
    room: usize,
}

impl Case {
    // These words, and empty lists.
    pub(crate) fn new(alloc: Global, words: [u32; WORDS]) -> Case {
        Case {
            words,
            pool: Vec::new(alloc),
            raw: Vec::new(alloc),
            tracks: Vec::new(alloc),
            markers: Vec::new(alloc),
            comments: Vec::new(alloc),
            callers: Vec::new(alloc),
            lengths: Vec::new(alloc),
            room: ROWS,
        }
    }

    // The numbers of a text as words from `at` on, as far as there are words.
    fn set_words(&mut self, alloc: Global, at: usize, text: &[u8]) -> Result<(), AllocError> {
        let values = fill(alloc, text, WORDS)?;
        for (word, value) in self.words.iter_mut().skip(at).zip(&values) {
            *word = *value;
        }
        Ok(())
    }

    // The numbers of a text as a list.
    fn list(&mut self, alloc: Global, text: &[u8]) -> Result<Vec<u32>, AllocError> {
        let values = fill(alloc, text, self.room)?;
        self.room = self.room.saturating_sub(values.len());
        Ok(values)
    }

    fn set(&mut self, alloc: Global, place: Target, text: &[u8]) -> Result<(), AllocError> {
        match place {
            Target::Word(at) => self.set_words(alloc, at, text)?,
            Target::Pool => self.pool = self.list(alloc, text)?,
            Target::Raw => self.raw = self.list(alloc, text)?,
            Target::Tracks => self.tracks = self.list(alloc, text)?,
            Target::Markers => self.markers = self.list(alloc, text)?,
            Target::Comments => self.comments = self.list(alloc, text)?,
            Target::Callers => self.callers = self.list(alloc, text)?,
            Target::Lengths => self.lengths = self.list(alloc, text)?,
        }
        Ok(())
    }

    // A change: a name and its numbers, a space before each.
    fn change(
        &mut self,
        rt: &(impl Print + AllocGlobal),
        table: &[u8],
        text: &[u8],
    ) -> io::Result<()> {
        let (name, numbers) = split_name(text);
        match names::place(table, name) {
            Some(place) => Ok(self.set(rt.alloc(), place, numbers)?),
            None => print::no_such_name(rt, name),
        }
    }

    // Changes, with a comma between them; one more at the end is none.
    pub(crate) fn changes(
        &mut self,
        rt: &(impl Print + AllocGlobal),
        table: &[u8],
        text: &[u8],
    ) -> io::Result<()> {
        for change in text.split_inclusive(|b| *b == b',') {
            self.change(rt, table, change.strip_suffix(b",").unwrap_or(change))?;
        }
        Ok(())
    }

    pub(crate) fn verdict(&self, alloc: Global) -> Result<Verdict, AllocError> {
        let bytes: Vec<u8> = self
            .raw
            .iter()
            .take(BYTES)
            .map(|word| (*word % 0x100) as u8)
            .collect(alloc)?;
        let lent = Lent {
            pools: Pools {
                text: &self.pool,
                bytes: &bytes,
            },
            tracks: &self.tracks,
            markers: &self.markers,
            comments: &self.comments,
            callers: &self.callers,
            lengths: &self.lengths,
        };
        Ok(words::verdict::verdict(&self.words, &lent))
    }
}
