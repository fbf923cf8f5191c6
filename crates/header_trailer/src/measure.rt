// The lengths of header and trailer.
ghost use Rattle.std.specs.Prelude.{◌≡◌, length};
ghost use Rattle.build_options.specs.Inputs.{inputs_of};
ghost use Rattle.file_tree.specs.File.{Ordered};
ghost use Rattle.header_trailer.specs.Measure.{Measured};

use build_options::inputs::Inputs;
use chunk::Cursor;
use file_layout::sides::{back, front_sized};

// The lengths of FRM8's data before the sound, and of the trailer.
#[derive(Clone, Copy)]
pub struct Lengths {
    pub front: usize,
    pub back: usize,
}

// Only for its contract: an array has as many places as its type says. A reference to a struct that holds it does not tell.
fn places<T, const N: usize>(order: &[T; N])
    ensures { length order.now ≡ N }
{}

// Only for its contract: the orders have as many places as their arrays.
pub fn orders(inputs: &Inputs<'_>)
    ensures { Ordered (inputs_of inputs.now) }
{
    places(&inputs.property_order);
    places(&inputs.info_order);
    places(&inputs.local_order);
}

// What is to be written is written to an empty buffer. How long the sound is, changes no length.
pub fn measure(inputs: &Inputs<'_>) -> Lengths
    ensures { Measured (inputs_of inputs.now) result }
{
    orders(inputs);
    let start = Cursor::new();
    let front = front_sized(start, &mut [], inputs, 0, 0);
    let back = back(start, &mut [], inputs, 0);
    Lengths {
        front: front.at,
        back: back.at,
    }
}
