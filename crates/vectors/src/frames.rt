// The bytes of frames, which are as the recorded ones were made: byte j of position k is, up to a multiple of 256,
// seed + 7k + 31j + j/256 in its content, and seed + 11k + 29j + j/256 + 128 in its DST frame.

fn low(n: usize) -> u8 {
    (n % 0x100) as u8
}

// A frame. Its bytes begin with `start` and go on by `step`, and by one more where j/256 does.
fn fill(frame: &mut [u8], start: u8, step: u8) {
    let mut at = start;
    for (j, byte) in frame.iter_mut().enumerate() {
        *byte = at.wrapping_add(low(j / 0x100));
        at = at.wrapping_add(step);
    }
}

// The contents of positions, so many bytes each, joined.
pub(crate) fn contents(out: &mut [u8], seed: u32, first: usize, end: usize, length: usize) {
    if length == 0 {
        return;
    }
    let seed = low(seed as usize);
    for (k, content) in (first..end).zip(out.chunks_mut(length)) {
        let start = seed.wrapping_add(low(k).wrapping_mul(7));
        fill(content, start, 31);
    }
}

// The DST frames of positions, of these lengths, joined.
pub(crate) fn frames(out: &mut [u8], seed: u32, lengths: &[u32], first: usize, end: usize) {
    let seed = low(seed as usize).wrapping_add(0x80);
    let mut at = 0;
    for (k, length) in lengths.iter().enumerate().take(end).skip(first) {
        let next = out.len().min(at + *length as usize);
        let start = seed.wrapping_add(low(k).wrapping_mul(11));
        fill(&mut out[at..next], start, 29);
        at = next;
    }
}
