// The read of a whole file. All is tested before the first byte is written: the sound, whose writer tests what is lent, comes before the header.
ghost use Rattle.std.specs.Prelude.{length};
ghost use Rattle.sound_reads.specs.Fill.{Filling};
ghost use Rattle.sound_reads.specs.Lent.{needed_at};
ghost use Rattle.read_rules.specs.Format.{unit_sizes};
ghost use Rattle.file_read.specs.Lent.{is_lent_for, sound_with};
ghost use Rattle.file_read.specs.Read.{asked, lent_fault, Reading, Reads};

use prop_fields::compression::Sound;
use read_answer::answer::ReadAnswer;
use read_rules::format::SoundFormat;
use refusal::verdict::Refusal;
use window::window::Window;

// What a read is told and lent, but for its buffer: the file's format, the lengths of all its DST frames, the built header and trailer, the file's byte that the
// read begins at and, for the positions that a query names, the lengths of their DST frames, those frames joined, and their plain contents joined (for DSD and, with
// CRC on, for DST).
#[derive(Clone, Copy)]
pub struct Request<'a> {
    pub format: SoundFormat,
    pub lengths: &'a [u32],
    pub header: &'a [u8],
    pub trailer: &'a [u8],
    pub offset: u64,
    pub lent: &'a [u32],
    pub frames: &'a [u8],
    pub contents: &'a [u8],
}

// Fills the rest of `out` with the sound, after what w skips of it.
fn fill(request: &Request<'_>, out: &mut [u8], w: Window) -> Option<Window>
    ensures { let q = asked request.now in
        Filling
        (is_lent_for q.format q.lengths (needed_at (unit_sizes q.format q.lengths) w out.old) q.lent q.frames q.contents)
        (sound_with q.format q.lengths (needed_at (unit_sizes q.format q.lengths) w out.old) q.frames q.contents)
        w out.old out.new result }
{
    let format = request.format;
    match format.sound {
        Sound::Dsd if !request.lent.is_empty() || !request.frames.is_empty() => None,
        Sound::Dsd => {
            dsd_reads::dsd_data::fill(out, w, format.channels, format.positions, request.contents)
        }
        Sound::Dst => dst_reads::dst_data::fill(
            out,
            w,
            format.crc,
            format.channels,
            request.lengths,
            request.lent,
            request.frames,
            request.contents,
        ),
    }
}

// Header, sound and trailer into their parts of `out`, or 43.
fn pieces(request: &Request<'_>, out: &mut [u8]) -> ReadAnswer
    ensures { let q = asked request.now in
        Reading (lent_fault q (length out.old)) q out.old out.new result }
{
    let begin = Window {
        at: 0,
        skip: request.offset,
    };
    let behind = begin.past(request.header.len() as u64, out.len());
    let w = fill(request, out, behind).ok_or(Refusal::NotLent)?;
    let end = w.put(out, request.trailer);
    begin.put(out, request.header);
    Ok(end.at as u64)
}

// Fills `out` with the file's bytes from the request's offset on: as many as the buffer has room for or as remain, none at or past the end.
pub fn read(request: &Request<'_>, out: &mut [u8]) -> ReadAnswer
    ensures { Reads (asked request.now) out.old out.new result }
{
    let header = request.header.len() as u64;
    let trailer = request.trailer.len() as u64;
    request.format.fault(request.lengths, header, trailer)?;
    pieces(request, out)
}
