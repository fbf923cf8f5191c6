// Rows of words: what a build is lent of texts, caller chunks, tracks, markers and comments. The last two words of a row are its extent.
ghost use Rattle.std.specs.Prelude.{◌≡◌, get_or};
ghost use Rattle.rows.specs.Row.{width, row_at, extent_of, count_of_rows, cut_short};

use texts::extent::Extent;

// What a row tells.
#[derive(Clone, Copy)]
pub enum Row {
    Text, // start, length
    Caller, // name, start, length
    Track, // start, duration, title start, title length
    Marker, // frame, kind and flags, text start, text length
    Comment, // year, month, day, hour, minutes, kind, reference, text start, text length
}

impl Row {
    // How many words it has.
    pub fn width(self) -> usize
        ensures { result ≡ width self }
    {
        match self {
            Row::Text => 2,
            Row::Caller => 3,
            Row::Track | Row::Marker => 4,
            Row::Comment => 9,
        }
    }

    // How many whole rows there are.
    pub fn count(self, rows: &[u32]) -> usize
        ensures { result ≡ count_of_rows self rows.now }
    {
        rows.len() / self.width()
    }

    // Whether the last row is cut short.
    pub fn is_cut_short(self, rows: &[u32]) -> bool
        ensures { result ≡ cut_short self rows.now }
    {
        rows.len() % self.width() != 0
    }
}

// Word j of row k, of rows of w words; 0 if there is no such word.
pub fn word(rows: &[u32], w: usize, k: usize, j: usize) -> u32
    ensures { result ≡ get_or (row_at w rows.now k) j 0 }
{
    if j < w && k <= rows.len() / w {
        rows[k * w..].get(j).copied().unwrap_or(0)
    } else {
        0
    }
}

// The extent of row k: its last two words.
pub fn extent_at(rows: &[u32], w: usize, k: usize) -> Extent
    ensures { result ≡ extent_of w (row_at w rows.now k) }
{
    Extent {
        start: word(rows, w, k, w.saturating_sub(2)),
        length: word(rows, w, k, w.saturating_sub(1)),
    }
}
