// Numbers of the file. What stands past the end of a record counts as 0.

// More than any list or file here has.
pub const PAST: usize = 0x4000_0000;

// A number of more bits than 64 is none.
const ROOM_FOR_SEVEN_BITS: u64 = 0x200_0000_0000_0000;

// As a place or a count.
pub(crate) fn count(n: u64) -> usize {
    n.min(PAST as u64) as usize
}

// The sum of counts, PAST where one of them is as much.
pub(crate) fn plus(a: usize, b: usize) -> usize {
    if a >= PAST || b >= PAST { PAST } else { a + b }
}

// The first number, and what follows it, if the file does not end before.
fn first(file: &[u8]) -> Option<(u64, &[u8])> {
    let mut value = 0;
    for (i, b) in file.iter().enumerate() {
        if value >= ROOM_FOR_SEVEN_BITS {
            return None;
        }
        value = value * 0x80 + u64::from(*b % 0x80);
        if *b < 0x80 {
            return Some((value, &file[i + 1..]));
        }
    }
    None
}

// The numbers that are left of a record.
#[derive(Clone, Copy)]
pub struct Numbers<'a> {
    // Nothing once the record was found to end before its last number.
    rest: Option<&'a [u8]>,
}

impl<'a> Numbers<'a> {
    pub(crate) fn new(file: &'a [u8]) -> Numbers<'a> {
        Numbers { rest: Some(file) }
    }

    pub(crate) fn take(&mut self) -> u64 {
        match self.rest.and_then(first) {
            Some((value, rest)) => {
                self.rest = Some(rest);
                value
            }
            None => {
                self.rest = None;
                0
            }
        }
    }

    pub(crate) fn take_count(&mut self) -> usize {
        count(self.take())
    }

    pub(crate) fn take_switch(&mut self) -> bool {
        self.take() != 0
    }

    // Ends the record here, before its last number.
    pub(crate) fn end(&mut self) {
        self.rest = None;
    }

    // How many bytes are left of the file, if the record does not end too early.
    pub(crate) fn left(&self) -> Option<usize> {
        self.rest.map(|rest| rest.len())
    }
}
