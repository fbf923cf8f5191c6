// The rows of custom markers as records.
use dsdiff::Marker;
use markers::marker::MarkerKind;
use std::alloc::{AllocError, Global};
use texts::extent::Extent;

// As many as are recorded, one more than a build takes.
pub const MOST: usize = 65_536;

fn kind(number: u32) -> MarkerKind {
    match number {
        0 => MarkerKind::TrackStart,
        1 => MarkerKind::TrackStop,
        2 => MarkerKind::ProgramStart,
        _ => MarkerKind::Index,
    }
}

// Whether each row has a kind that records can tell.
pub(crate) fn have_kinds(rows: &[u32]) -> bool {
    rows.chunks(4).all(|row| match row {
        [_, mixed, ..] => matches!(*mixed / 0x1_0000, 0..=2 | 4),
        _ => true,
    })
}

fn record(row: &[u32; 4]) -> Marker {
    let [frame, mixed, start, length] = *row;
    Marker {
        frame,
        kind: kind(mixed / 0x1_0000),
        flags: (mixed % 0x1_0000) as u16,
        text: Extent { start, length },
    }
}

// Each row as a record.
pub(crate) fn records(alloc: Global, rows: &[u32]) -> Result<Vec<Marker>, AllocError> {
    let (rows, _) = rows.as_chunks::<4>();
    rows.iter().map(record).collect(alloc)
}
