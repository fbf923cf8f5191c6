// Places in the sound, and the positions that a read touches.

// A place in the sound: a position, and the bytes of its unit before the place. Past the sound's end it is the number of positions, and the
// bytes from that end on.
#[derive(Clone, Copy)]
pub struct Place {
    pub position: usize,
    pub within: u64,
}

// Positions from the first up to, not including, the end.
#[derive(Clone, Copy)]
pub struct Positions {
    pub first: usize,
    pub end: usize,
}
