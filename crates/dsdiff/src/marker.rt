// Markers that are lent as records, and the table of rows that they are taken apart into.
ghost use Rattle.std.specs.Prelude.{◌≡◌};
ghost use Rattle.dsdiff.specs.Table.{stored, filled};

use markers::marker::MarkerKind;
use texts::extent::Extent;

// 01's form: a lent slice of records, which one loop takes apart.
#[derive(Clone, Copy)]
pub struct Marker {
    pub frame: u32,
    pub kind: MarkerKind,
    pub flags: u16, // of a track's start
    pub text: Extent, // bytes of the byte pool
}

// Most markers (01, refusal 1).
pub(crate) const MOST_MARKERS: usize = 65_535;

// Four words for each: 1 MiB, of a fixed length, since there is no heap.
pub(crate) type Table = [u32; 262_140];

// A marker into row `i` of the table, if the table has that row.
fn put(table: &mut Table, i: usize, m: Marker)
    ensures { table.new ≡ stored table.old i m }
{
    if i < MOST_MARKERS {
        let at = i * 4;
        table[at] = m.frame;
        table[at + 1] = m.kind.value() as u32 * 0x1_0000 + m.flags as u32;
        table[at + 2] = m.text.start;
        table[at + 3] = m.text.length;
    }
}

// The markers into the rows of the table.
pub(crate) fn unpack(markers: &[Marker], table: &mut Table)
    ensures { table.new ≡ filled table.old 0 markers.now }
{
    for (i, marker) in markers.iter().enumerate() {
        put(table, i, *marker);
    }
}
