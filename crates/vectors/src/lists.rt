// Lists of words, each with its count in front.

// The list at the front, and what follows it; both are empty where there is no room for it.
pub(crate) fn first(rows: &[u32]) -> (&[u32], &[u32]) {
    match rows {
        [] => (rows, rows),
        [count, rest @ ..] => rest.split_at_checked(*count as usize).unwrap_or_default(),
    }
}
