// The numbers of a text.
use crate::number::number;
use std::alloc::{AllocError, Global};

// Adds the row so many times, as far as there is room for so many numbers in all. No more is reserved than is added.
fn put(list: &mut Vec<u32>, row: &[u32], times: u32, room: usize) -> Result<(), AllocError> {
    let left = room.saturating_sub(list.len());
    let n = row.len().saturating_mul(times as usize).min(left);
    list.reserve_exact(n)?;
    for value in row.iter().cycle().take(n) {
        list.push(*value)?;
    }
    Ok(())
}

// The numbers of a text, with a space between them, as far as there is room for so many. A * has the times that the numbers
// since the last * stand there.
pub(crate) fn fill(alloc: Global, text: &[u8], room: usize) -> Result<Vec<u32>, AllocError> {
    let mut list = Vec::new(alloc);
    let mut row = Vec::new(alloc);
    for word in text.split(|b| *b == b' ') {
        match word {
            [] => {}
            [b'*', times @ ..] => {
                put(&mut list, &row, number(times).max(1), room)?;
                row.clear();
            }
            _ => row.push(number(word))?,
        }
    }
    put(&mut list, &row, 1, room)?;
    Ok(list)
}
