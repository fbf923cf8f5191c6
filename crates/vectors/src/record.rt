// A record of any kind.
use crate::buffers::{FILL, SIDE, front};
use crate::counts::Counts;
use crate::file::Ends;
use crate::inputs::Inputs;
use crate::number::{Numbers, count};
use crate::{builds, file, reads, unpack};
use std::alloc::{AllocError, Global};

// Room for the words of a build, and for its raw bytes: a text of 1,048,577 elements, one more than a build takes.
const WORDS: usize = 1_050_000;

const RAW: usize = 1_050_000;

const FILE_WORDS: usize = 2_048;

// The two longest tables, of 5.2 MB, are on the heap, to keep the stack small. The raw bytes stand behind the words and are
// unpacked by way of the rows, so the words come again after them.
fn build(alloc: Global, numbers: &mut Numbers, counts: &mut Counts) -> Result<bool, AllocError> {
    let mut rows = vec![in alloc; 0u32; WORDS]?;
    let mut raw = vec![in alloc; 0u8; RAW]?;
    let mut words = *numbers;
    unpack::words(numbers, &mut rows);
    let in_raw = unpack::bytes_by(numbers, &mut rows, &mut raw);
    unpack::words(&mut words, &mut rows);
    let raw = match in_raw {
        Some(n) => front(&raw, n),
        None => &raw[..0],
    };
    builds::run(alloc, numbers, counts, Inputs::new(&rows, raw))
}

fn windows(numbers: &mut Numbers, counts: &mut Counts) -> bool {
    let mut rows = [0u32; FILE_WORDS];
    let mut header = [FILL; SIDE];
    let mut trailer = [FILL; SIDE];
    unpack::words(numbers, &mut rows);
    let f = file::read(numbers, &rows);
    let has_bytes = numbers.take_switch();
    if has_bytes {
        unpack::bytes(numbers, &mut header);
        unpack::bytes(numbers, &mut trailer);
    }
    let ends = Ends {
        header: front(&header, count(f.header)),
        trailer: front(&trailer, count(f.trailer)),
    };
    reads::run(numbers, counts, f, has_bytes.then_some(ends))
}

// The record that stands at the beginning. Whether all is as recorded.
pub(crate) fn run(
    alloc: Global,
    numbers: &mut Numbers,
    counts: &mut Counts,
) -> Result<bool, AllocError> {
    match numbers.take() {
        0 => build(alloc, numbers, counts),
        1 => Ok(windows(numbers, counts)),
        _ => {
            numbers.end();
            Ok(false)
        }
    }
}
