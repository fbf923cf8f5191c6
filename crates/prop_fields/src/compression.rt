// The compression type: the data of CMPR.
ghost use Rattle.chunk.specs.Append.{Appended};
ghost use Rattle.prop_fields.specs.Compression.{compression_data, cmpr_data};

use chunk::Cursor;

// The sound of a file.
#[derive(Clone, Copy, PartialEq, Eq)]
pub enum Sound {
    Dsd,
    Dst,
}

// The data of CMPR. Departure D1 counts the pad inside an odd one.
pub fn cmpr_data(c: Cursor, out: &mut [u8], sound: Sound, d1: bool) -> Cursor
    ensures { Appended out.old c.at (cmpr_data sound d1) out.new result.at }
{
    match sound {
        Sound::Dsd => compression_data(c, out, *b"DSD ", b"not compressed", d1),
        Sound::Dst => compression_data(c, out, *b"DST ", b"DST Encoded", d1),
    }
}

// The same of a type and its name, of which the low byte of the length is written.
fn compression_data(c: Cursor, out: &mut [u8], kind: [u8; 4], name: &[u8], d1: bool) -> Cursor
    ensures { Appended out.old c.at (compression_data kind name.now d1) out.new result.at }
{
    let c = c.name(out, kind);
    let c = c.byte(out, (name.len() % 256) as u8);
    let c = c.bytes(out, name);
    if d1 {
        c.pad(out, 5 + name.len() as u64)
    } else {
        c
    }
}
