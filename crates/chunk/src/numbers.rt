// Big-endian numbers.
ghost use Rattle.chunk.specs.Append.{Appended};
ghost use Rattle.chunk.specs.Number.{be};

use crate::cursor::Cursor;

impl Cursor {
    pub fn be16(self, out: &mut [u8], x: u16) -> Cursor
        ensures { Appended out.old self.at (be 2 x) out.new result.at }
    {
        self.bytes(out, &u16::to_be_bytes(x))
    }

    pub fn be32(self, out: &mut [u8], x: u32) -> Cursor
        ensures { Appended out.old self.at (be 4 x) out.new result.at }
    {
        self.bytes(out, &u32::to_be_bytes(x))
    }

    pub fn be64(self, out: &mut [u8], x: u64) -> Cursor
        ensures { Appended out.old self.at (be 8 x) out.new result.at }
    {
        self.bytes(out, &u64::to_be_bytes(x))
    }
}
