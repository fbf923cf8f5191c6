use std::io;

// A line of bytes, each as two hexadecimal digits.
pub(crate) fn bytes(rt: &impl Print, s: &[u8]) -> io::Result<()> {
    for b in s {
        print!(rt; " {b:02x}")?;
    }
    println!(rt)
}

// How many bytes were written, and the first so many of a buffer, or all if there are fewer.
pub(crate) fn written(rt: &impl Print, out: &[u8], n: usize) -> io::Result<()> {
    print!(rt; ", {n} bytes:")?;
    bytes(rt, &out[..n.min(out.len())])
}

pub(crate) fn yes_or_no(yes: bool) -> &'static str {
    if yes { "yes" } else { "no" }
}
