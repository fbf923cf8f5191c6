// Header and trailer of a DSDIFF file, from the inputs of a build.
// Its markers are lent as records. They are taken apart into a table of rows, one after the other; all else goes by the table.
#![tactic(auto)]

pub mod marker; // marker.rt: markers as records, and the table of their rows

ghost use Rattle.std.specs.Prelude.{◌≡◌, List, ◌≤◌, length, take};
ghost use Rattle.dsdiff.specs.declared.marker.Marker.{Marker};
ghost use Rattle.build_options.specs.Inputs.{inputs_of, with_markers};
ghost use Rattle.assemble.specs.Build.{Builds};
ghost use Rattle.dsdiff.specs.Marker.{looked_at};
ghost use Rattle.dsdiff.specs.Table.{no_rows, filled};

use assemble::build::build_rows;
use build_answer::answer::Answer;
use build_options::inputs::{Inputs, Lent};
use header_trailer::measure::orders;
pub use marker::Marker;
use marker::{MOST_MARKERS, Table, unpack};
use refusal::verdict::Refusal;

// The build whose markers are the first words of a table.
fn build_part(
    table: &[u32],
    end: usize,
    inputs: &Inputs<'_>,
    header: &mut [u8],
    trailer: &mut [u8],
) -> Answer
    requires { end ≤ length table.now }
    ensures { Builds (with_markers (take end table.now) (inputs_of inputs.now)) header.old header.new trailer.old trailer.new result }
{
    let lent = Lent {
        markers: &table[..end],
        ..inputs.lent
    };
    build_rows(&Inputs { lent, ..*inputs }, header, trailer)
}

// The build of n markers that the table holds, as many as it has rows for.
fn build_table(
    table: &Table,
    n: usize,
    inputs: &Inputs<'_>,
    header: &mut [u8],
    trailer: &mut [u8],
) -> Answer
    ensures { (ms : List Marker) → table.now ≡ filled no_rows 0 ms → n ≡ length ms
        → Builds (with_markers (looked_at inputs.now.options.custom_markers ms) (inputs_of inputs.now)) header.old header.new trailer.old trailer.new result }
{
    if !inputs.options.custom_markers {
        return build_part(table, 0, inputs, header, trailer);
    }
    orders(inputs);
    if MOST_MARKERS < n {
        return Err(Refusal::TooLarge);
    }
    build_part(table, n * 4, inputs, header, trailer)
}

// Header and trailer of a file into the buffers. The markers are these records, not the rows of `inputs`. More than 65,535 of them are refused (1); if
// markers are not wanted, they are not looked at.
pub fn build(
    inputs: &Inputs<'_>,
    markers: &[Marker],
    header: &mut [u8],
    trailer: &mut [u8],
) -> Answer
    ensures { Builds (with_markers (looked_at inputs.now.options.custom_markers markers.now) (inputs_of inputs.now)) header.old header.new trailer.old trailer.new result }
{
    let mut table: Table = [0; 262_140];
    unpack(markers, &mut table);
    build_table(&table, markers.len(), inputs, header, trailer)
}
