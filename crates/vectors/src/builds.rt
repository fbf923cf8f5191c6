// A recorded build, built again.
use crate::answer::{Recorded, Wanted};
use crate::buffers::Sides;
use crate::counts::{Count, Counts};
use crate::inputs::Inputs;
use crate::number::{Numbers, count};
use crate::{answer, by_records, unpack};
use single_words::word::is_set;
use std::alloc::{AllocError, Global};

// Where among the words the kind of sound stands, and the switch of CRCs.
const SOUND: usize = 0;

const CRC: usize = 18;

// With buffers of which the first so many bytes are lent.
fn build_short(
    inputs: Inputs,
    wanted: Wanted,
    sides: &mut Sides,
    header_room: usize,
    trailer_room: usize,
) -> bool {
    if header_room > sides.header.len() || trailer_room > sides.trailer.len() {
        return false;
    }
    let header = &mut sides.header[..header_room];
    let trailer = &mut sides.trailer[..trailer_room];
    wanted.holds(inputs.build(header, trailer), header_room, trailer_room)
}

// With a buffer that is one byte short, first for the header, then for the trailer, if it is built and has one. The buffers are
// to stay.
fn refused_short(counts: &mut Counts, inputs: Inputs, wanted: Wanted, sides: &mut Sides) -> bool {
    let Wanted::Built(built) = wanted else {
        return true;
    };
    let header = count(built.header);
    let trailer = count(built.trailer);
    if header == 0 || !build_short(inputs, wanted, sides, header - 1, trailer) {
        return false;
    }
    counts.add(Count::Short, 1);
    if trailer == 0 {
        return true;
    }
    counts.add(Count::Short, 1);
    build_short(inputs, wanted, sides, header, trailer - 1)
}

// The recorded header and trailer. Whether they have the recorded lengths.
fn recorded(numbers: &mut Numbers, wanted: Wanted, sides: &mut Sides) -> bool {
    let Wanted::Built(built) = wanted else {
        return true;
    };
    let in_header = unpack::bytes(numbers, &mut sides.header);
    let in_trailer = unpack::bytes(numbers, &mut sides.trailer);
    in_header == Some(count(built.header)) && in_trailer == Some(count(built.trailer))
}

fn tally(counts: &mut Counts, words: &[u32], recorded: Recorded, agrees: bool) {
    counts.add_if(Count::Alone, recorded.alone);
    counts.add_if(Count::BuildsAgree, agrees);
    match recorded.wanted {
        Wanted::Built(built) => {
            counts.add(Count::Built, 1);
            let kind = match (is_set(words, SOUND), is_set(words, CRC)) {
                (false, _) => Count::BuiltDsd,
                (true, false) => Count::BuiltDst,
                (true, true) => Count::BuiltDstWithCrcs,
            };
            counts.add(kind, 1);
            if agrees {
                counts.add(Count::Bytes, count(built.header));
                counts.add(Count::Bytes, count(built.trailer));
            }
        }
        Wanted::Refused { number, .. } => {
            counts.add(Count::Refused, 1);
            counts.add_refusal(number);
        }
    }
}

// Whether it is built as recorded: the answer, and both buffers; and so with records.
fn is_built(
    alloc: Global,
    counts: &mut Counts,
    inputs: Inputs,
    wanted: Wanted,
    sides: &mut Sides,
    wanted_sides: &Sides,
) -> Result<bool, AllocError> {
    let header_room = sides.header.len();
    let trailer_room = sides.trailer.len();
    let given = inputs.build(&mut sides.header, &mut sides.trailer);
    let with_records = by_records::agrees(alloc, counts, inputs, given, sides)?;
    Ok(with_records && wanted.holds(given, header_room, trailer_room) && *sides == *wanted_sides)
}

fn compare(
    alloc: Global,
    numbers: &mut Numbers,
    counts: &mut Counts,
    inputs: Inputs,
    wanted: Wanted,
) -> Result<bool, AllocError> {
    let mut sides = Sides::new(alloc)?;
    let mut wanted_sides = Sides::new(alloc)?;
    let refused = refused_short(counts, inputs, wanted, &mut sides);
    let stay = sides == wanted_sides;
    let found = recorded(numbers, wanted, &mut wanted_sides);
    let built = is_built(alloc, counts, inputs, wanted, &mut sides, &wanted_sides)?;
    Ok(refused && stay && found && built)
}

// The recorded answer of these inputs, which stands behind them. Whether all is as recorded.
pub(crate) fn run(
    alloc: Global,
    numbers: &mut Numbers,
    counts: &mut Counts,
    inputs: Inputs,
) -> Result<bool, AllocError> {
    let recorded = answer::read(numbers);
    let agrees = compare(alloc, numbers, counts, inputs, recorded.wanted)?;
    tally(counts, inputs.words, recorded, agrees);
    Ok(agrees)
}
