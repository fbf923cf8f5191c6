// The writing cursor (document 01's writing place). It travels by value: an append takes it and hands the moved one back. What does not
// fit in the buffer is dropped, and the cursor moves on all the same, so that the same appends on an empty buffer measure.
ghost use Rattle.std.specs.Prelude.{◌≡◌, [], ◌∷◌};
ghost use Rattle.chunk.specs.Append.{Appended, moved};

// Where the next byte goes.
#[derive(Clone, Copy)]
pub struct Cursor {
    pub at: usize,
}

impl Cursor {
    // The cursor at the front of a buffer.
    pub fn new() -> Cursor
        ensures { result.at ≡ 0 }
    {
        Cursor { at: 0 }
    }

    // The cursor n bytes on, or at the largest usize.
    pub fn skip(self, n: usize) -> Cursor
        ensures { result.at ≡ moved self.at n }
    {
        Cursor {
            at: self.at.saturating_add(n),
        }
    }

    // Not by `bytes`: where a byte fits, the place after it needs no bound, and a loop of such bytes takes 0.41 ns for each, not 1.13.
    pub fn byte(self, out: &mut [u8], b: u8) -> Cursor
        ensures { Appended out.old self.at (b ∷ []) out.new result.at }
    {
        if self.at < out.len() {
            out[self.at] = b;
            Cursor { at: self.at + 1 }
        } else {
            self.skip(1)
        }
    }

    // Where all of it fits, the copy is as long as the source, and the compiler knows that length of a name and of a number.
    pub fn bytes(self, out: &mut [u8], src: &[u8]) -> Cursor
        ensures { Appended out.old self.at src.now out.new result.at }
    {
        let at = self.at.min(out.len());
        let room = out.len() - at;
        if src.len() <= room {
            out[at..at + src.len()].copy_from_slice(src);
        } else if 0 < room {
            out[at..].copy_from_slice(&src[..room]);
        }
        self.skip(src.len())
    }

    // The four bytes of a chunk's name.
    pub fn name(self, out: &mut [u8], id: [u8; 4]) -> Cursor
        ensures { Appended out.old self.at id out.new result.at }
    {
        self.bytes(out, &id)
    }
}
