// The recorded answer of a build.
use crate::number::Numbers;
use build_answer::answer::{Answer, Built};
use refusal::verdict::{Refusal, detail_of, number_of};

#[derive(Clone, Copy)]
pub enum Wanted {
    // Their lengths; header and trailer follow in the file.
    Built(Built),
    Refused { number: u64, detail: u64 },
}

impl Wanted {
    // Whether it is so answered, the buffers having so many bytes: 40 or 41 where they are too few.
    pub(crate) fn holds(self, given: Answer, header_room: usize, trailer_room: usize) -> bool {
        match self {
            Wanted::Built(Built { header, .. }) if header > header_room as u64 => {
                given == Err(Refusal::HeaderRoom { needed: header })
            }
            Wanted::Built(Built { trailer, .. }) if trailer > trailer_room as u64 => {
                given == Err(Refusal::TrailerRoom { needed: trailer })
            }
            Wanted::Built(built) => given == Ok(built),
            Wanted::Refused { number, detail } => {
                u64::from(number_of(given)) == number && detail_of(given) == detail
            }
        }
    }
}

// A recorded answer, and whether it is by document 01 alone.
#[derive(Clone, Copy)]
pub struct Recorded {
    pub alone: bool,
    pub wanted: Wanted,
}

pub(crate) fn read(numbers: &mut Numbers) -> Recorded {
    let alone = numbers.take_switch();
    let wanted = match numbers.take() {
        0 => Wanted::Built(Built {
            header: numbers.take(),
            sound: numbers.take(),
            trailer: numbers.take(),
        }),
        number => Wanted::Refused {
            number,
            detail: numbers.take(),
        },
    };
    Recorded { alone, wanted }
}
