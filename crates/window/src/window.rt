// A read's place, which travels by value: each piece is put into the part of the caller's buffer that begins at it, and the place after
// the piece is handed on.
ghost use Rattle.std.specs.Prelude.{◌≡◌, ◌-◌};
ghost use Rattle.window.specs.Window.{after, Wrote};

use chunk::Cursor;

// Bytes written so far, and bytes of what is read that are still to be skipped.
#[derive(Clone, Copy)]
pub struct Window {
    pub at: usize,
    pub skip: u64,
}

// How many bytes fit in a buffer of so many, from a place on.
pub fn room(len: usize, at: usize) -> usize
    ensures { result ≡ len - at }
{
    len.saturating_sub(at)
}

impl Window {
    // Past a piece of so many bytes, of which nothing is to be written.
    pub fn pass(self, size: u64) -> Window
        ensures { result ≡ record { at = self.at; skip = self.skip - size } }
    {
        Window {
            skip: self.skip.saturating_sub(size),
            ..self
        }
    }

    // Past a piece of so many bytes, which is put into a buffer of `len` bytes later, or was before.
    #[tactic(auto, unfolding(crate::specs::Window::after))]
    pub fn past(self, size: u64, len: usize) -> Window
        ensures { result ≡ after size len self }
    {
        let free = room(len, self.at) as u64;
        let wanted = size.saturating_sub(self.skip);
        Window {
            at: self.at + wanted.min(free) as usize,
            ..self.pass(size)
        }
    }

    // Puts the next piece.
    pub fn put(self, out: &mut [u8], piece: &[u8]) -> Window
        ensures { Wrote piece.now self out.old out.new result }
    {
        let skip = self.skip.min(piece.len() as u64) as usize;
        Cursor { at: self.at }.bytes(out, &piece[skip..]);
        self.past(piece.len() as u64, out.len())
    }
}
