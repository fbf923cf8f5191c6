// 3: the values of texts are Unicode scalars.
ghost use Rattle.std.specs.Prelude.{◌≡◌};
ghost use Rattle.texts.specs.Extent.{part};
ghost use Rattle.rows.specs.Scalars.{is_no_scalar, has_no_scalar, no_scalars};

use crate::row::{Row, extent_at};
use texts::extent::Extent;

fn is_no_scalar(x: u32) -> bool
    ensures { result ≡ is_no_scalar x }
{
    ((0xD800 <= x) & (x <= 0xDFFF)) | (0x10FFFF < x)
}

// Whether one of the values is none.
fn has_no_scalar(values: &[u32]) -> bool
    ensures { result ≡ has_no_scalar values.now }
{
    let mut found = false;
    for x in values {
        found |= is_no_scalar(*x);
    }
    found
}

// The same of a part of a pool.
fn part_has_no_scalar(pool: &[u32], e: Extent) -> bool
    ensures { result ≡ has_no_scalar (part pool.now e) }
{
    has_no_scalar(&pool[e.first(pool.len())..e.end(pool.len())])
}

// The same of the texts that rows name.
pub fn no_scalars(kind: Row, rows: &[u32], pool: &[u32]) -> bool
    ensures { result ≡ no_scalars kind rows.now pool.now }
{
    let w = kind.width();
    rows.chunks_exact(w)
        .any(|row| part_has_no_scalar(pool, extent_at(row, w, 0)))
}
