// 1 and 2: the extents that rows name, held to their limits and their pool.
ghost use Rattle.std.specs.Prelude.{◌≡◌};
ghost use Rattle.row_extents.specs.Extents.{too_large, outside_pool};

use rows::row::{Row, extent_at};

// What is wrong with rows: an extent or the rows are too many (1); an extent, or the last row, runs outside its pool (2).
#[derive(Clone, Copy)]
pub struct RowFaults {
    pub too_large: bool,
    pub outside: bool,
}

// Rows of at most `most`, whose extents name at most `longest` of a pool's elements.
pub fn extents(kind: Row, rows: &[u32], most: u64, longest: u32, pool: usize) -> RowFaults
    ensures too_large_value { result.too_large ≡ too_large kind rows.now most longest }
    ensures outside_value { result.outside ≡ outside_pool kind rows.now pool }
{
    let w = kind.width();
    let mut long = false;
    let mut outside = false;
    for row in rows.chunks_exact(w) {
        let e = extent_at(row, w, 0);
        long |= longest < e.length;
        outside |= (pool as u64) < e.start as u64 + e.length as u64;
    }
    RowFaults {
        too_large: (most < kind.count(rows) as u64) | long,
        outside: kind.is_cut_short(rows) | outside,
    }
}
