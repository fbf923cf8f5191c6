// A build: the verdict on its inputs, the lengths of what is to be written, and then the writing.
ghost use Rattle.std.specs.Prelude.{◌≡◌, Ok};
ghost use Rattle.build_options.specs.Inputs.{inputs_of};
ghost use Rattle.checks.specs.InputVerdict.{verdict};
ghost use Rattle.assemble.specs.Build.{Builds};
ghost use Rattle.assemble.specs.Steps.{LaysOut};

use build_answer::answer::{Answer, Built};
use build_options::inputs::Inputs;
use checks::verdict::verdict;
use header_trailer::fill::fill_around;
use header_trailer::measure::{measure, orders};
use room_rules::room::room_faults;

// What an accepted build does: measure, see that the buffers have room, write.
fn lay_out(inputs: &Inputs<'_>, header: &mut [u8], trailer: &mut [u8]) -> Answer
    requires { verdict (inputs_of inputs.now) ≡ Ok tt }
    ensures { LaysOut (inputs_of inputs.now) header.old header.new trailer.old trailer.new result }
{
    let m = measure(inputs);
    let before = m.front as u64;
    let behind = m.back as u64;
    let base = 12 + before;
    room_faults(base, behind, header.len(), trailer.len())?;
    let sound = fill_around(before + behind, base, inputs, header, trailer);
    Ok(Built {
        header: base,
        sound,
        trailer: behind,
    })
}

// Header and trailer of a file into the buffers, with given markers as rows of four words.
pub fn build_rows(inputs: &Inputs<'_>, header: &mut [u8], trailer: &mut [u8]) -> Answer
    ensures { Builds (inputs_of inputs.now) header.old header.new trailer.old trailer.new result }
{
    orders(inputs);
    verdict(inputs)?;
    lay_out(inputs, header, trailer)
}
