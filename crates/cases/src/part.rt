// Parts of a text.

// A text up to its first space, and from there on. A space at its front is not counted.
pub(crate) fn split_name(text: &[u8]) -> (&[u8], &[u8]) {
    match text {
        [] => (text, text),
        [_, rest @ ..] => {
            let end = rest.iter().position(|b| *b == b' ');
            text.split_at(1 + end.unwrap_or(rest.len()))
        }
    }
}
