// The file that windows are of.
use crate::lists::first;
use crate::number::Numbers;
use read_rules::format::SoundFormat;
use single_words::word::{byte, is_set, word};

// Where the count of the lengths stands among the words.
const LENGTHS: usize = 5;

// The sound, the lengths of its DST frames, the seed of its bytes, and the lengths of header and trailer.
#[derive(Clone, Copy)]
pub struct File<'a> {
    pub format: SoundFormat,
    pub lengths: &'a [u32],
    pub seed: u32,
    pub header: u64,
    pub trailer: u64,
}

// What stands around the sound. Without it only queries can be asked.
#[derive(Clone, Copy)]
pub struct Ends<'a> {
    pub header: &'a [u8],
    pub trailer: &'a [u8],
}

// The rows are the unpacked words of the file.
pub(crate) fn read<'a>(numbers: &mut Numbers, rows: &'a [u32]) -> File<'a> {
    let (lengths, _) = first(rows.get(LENGTHS..).unwrap_or_default());
    File {
        format: SoundFormat {
            sound: meanings::property::sound(is_set(rows, 0)),
            crc: is_set(rows, 1),
            channels: byte(rows, 2),
            positions: word(rows, 3),
        },
        lengths,
        seed: word(rows, 4),
        header: numbers.take(),
        trailer: numbers.take(),
    }
}
