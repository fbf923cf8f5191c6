// A recorded window.
use crate::number::Numbers;

// From the file's byte `offset` on so many bytes; the positions needed, the first and one past the last; how many lengths,
// bytes of DST frames and bytes of content are lent; whether the answer is by document 01 alone; the number of the refusal.
#[derive(Clone, Copy)]
pub struct Window {
    pub offset: u64,
    pub room: u64,
    pub first: u64,
    pub end: u64,
    pub lent: usize,
    pub frames: usize,
    pub contents: usize,
    pub alone: bool,
    pub refusal: Option<u64>,
}

pub(crate) fn read(numbers: &mut Numbers) -> Window {
    Window {
        offset: numbers.take(),
        room: numbers.take(),
        first: numbers.take(),
        end: numbers.take(),
        lent: numbers.take_count(),
        frames: numbers.take_count(),
        contents: numbers.take_count(),
        alone: numbers.take_switch(),
        refusal: match numbers.take() {
            0 => None,
            number => Some(number),
        },
    }
}
