// A number of a text: 150, 0xD800, or a name in quotes, as "FRM8", for the word of its bytes.

// 16 for what is no digit.
fn digit(b: u8) -> u32 {
    match b {
        b'0'..=b'9' => u32::from(b - b'0'),
        b'A'..=b'F' => u32::from(b - b'A') + 10,
        _ => 16,
    }
}

// No `u32::from_str_radix`: a number past 32 bits counts by its low ones, and what is no digit counts too.
fn digits(text: &[u8], base: u32) -> u32 {
    text.iter()
        .fold(0u32, |n, b| n.wrapping_mul(base).wrapping_add(digit(*b)))
}

pub(crate) fn number(text: &[u8]) -> u32 {
    match text {
        [_, b'x', hex @ ..] => digits(hex, 16),
        [b'"', a, b, c, d, ..] => u32::from_be_bytes([*a, *b, *c, *d]),
        [b'"', ..] => 0,
        _ => digits(text, 10),
    }
}
