// Buffers.
use std::alloc::{AllocError, Global};

// What they hold before a call.
pub const FILL: u8 = 0xA5;

// Room for a header.
const ROOM: usize = 66_560;

// Room for a trailer, and for the two sides of a file that is read.
pub const SIDE: usize = 8_192;

// The buffers of a build.
#[derive(PartialEq, Drop)]
pub struct Sides {
    pub header: Vec<u8>,
    pub trailer: Vec<u8>,
}

impl Sides {
    pub(crate) fn new(alloc: Global) -> Result<Sides, AllocError> {
        let header = vec![in alloc; FILL; ROOM]?;
        let trailer = vec![in alloc; FILL; SIDE]?;
        Ok(Sides { header, trailer })
    }
}

// The first n bytes, none where there are fewer.
pub(crate) fn front(bytes: &[u8], n: usize) -> &[u8] {
    bytes.get(..n).unwrap_or_default()
}
