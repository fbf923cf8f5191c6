// An extent (document 01's stretch): so many elements of a lent pool, from a start on.
ghost use Rattle.std.specs.Prelude.{◌≡◌, ◌+◌, min};

#[derive(Clone, Copy)]
pub struct Extent {
    pub start: u32,
    pub length: u32,
}

impl Extent {
    // Its first place in a pool of so many elements. What runs outside the pool is cut off.
    pub fn first(self, pool: usize) -> usize
        ensures { result ≡ min self.start pool }
    {
        (self.start as usize).min(pool)
    }

    // One past its last place there.
    pub fn end(self, pool: usize) -> usize
        ensures { result ≡ min (self.start + self.length) pool }
    {
        (self.start as usize + self.length as usize).min(pool)
    }
}
