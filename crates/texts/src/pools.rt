// The pools that a build is lent, and that the extents of its rows name parts of.

#[derive(Clone, Copy)]
pub struct Pools<'a> {
    pub text: &'a [u32], // Unicode values
    pub bytes: &'a [u8],
}
