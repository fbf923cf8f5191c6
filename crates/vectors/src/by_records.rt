// A recorded build with custom markers, built again with these as records.
use crate::buffers::Sides;
use crate::counts::{Count, Counts};
use crate::inputs::Inputs;
use crate::records;
use build_answer::answer::Answer;
use single_words::word::is_set;
use std::alloc::{AllocError, Global};

// Where the switch of custom markers stands among the words.
const CUSTOM: usize = 27;

// The words have no fault.
fn build(alloc: Global, inputs: Inputs, sides: &mut Sides) -> Result<Answer, AllocError> {
    let markers = records::records(alloc, inputs.lent.markers)?;
    let inputs = words::inputs::inputs_of(inputs.words, &inputs.lent);
    Ok(dsdiff::build(&inputs, &markers, &mut sides.header, &mut sides.trailer))
}

// Whether the answer is that of the build by rows, and so is what it leaves in buffers of FILL.
fn is_same(
    alloc: Global,
    inputs: Inputs,
    by_rows: Answer,
    sides: &Sides,
) -> Result<bool, AllocError> {
    let mut own = Sides::new(alloc)?;
    let given = build(alloc, inputs, &mut own)?;
    Ok(given == by_rows && own == *sides)
}

// Where it is counted: among those that records can tell, or by what they cannot.
fn place(words: &[u32], markers: &[u32]) -> Count {
    match words::border::words_fault(words) {
        Err(_) => Count::WordsAtFault,
        Ok(()) if markers.len() % 4 != 0 => Count::RowCutShort,
        Ok(()) if !records::have_kinds(markers) => Count::NoSuchKind,
        Ok(()) if markers.len() / 4 > records::MOST => Count::TooMany,
        Ok(()) => Count::ByRecords,
    }
}

// Whether it is built as by rows, if it has custom markers that records can tell. by_rows is the answer by rows, and sides are
// what that left in buffers of FILL.
pub(crate) fn agrees(
    alloc: Global,
    counts: &mut Counts,
    inputs: Inputs,
    by_rows: Answer,
    sides: &Sides,
) -> Result<bool, AllocError> {
    if !is_set(inputs.words, CUSTOM) {
        return Ok(true);
    }
    let k = place(inputs.words, inputs.lent.markers);
    counts.add(Count::Custom, 1);
    counts.add(k, 1);
    match k {
        Count::ByRecords => {
            let agrees = is_same(alloc, inputs, by_rows, sides)?;
            counts.add_if(Count::RecordsAgree, agrees);
            Ok(agrees)
        }
        _ => Ok(true),
    }
}
