// The query and the read of a whole file. DST has one position for each length, DSD has so many `positions`; the other of the two is not looked at. The number of the
// refusal is answered, 0 for none.
ghost use Rattle.std.specs.Prelude.{◌≡◌};
ghost use Rattle.file_query.specs.Query.{query_of};
ghost use Rattle.file_read.specs.Read.{request_of};
ghost use Rattle.abi.specs.Reads.{format_of, Queried, ReadAnswered};

use file_query::query::query;
use file_read::read::{Request, read};
use meanings::property::sound;
use read_answer::answer::{query_values, read_value};
use read_rules::format::SoundFormat;
use refusal::verdict::number_of;

fn format(dst: bool, crc: bool, channels: u8, positions: u32) -> SoundFormat
    ensures { result ≡ format_of dst crc channels positions }
{
    SoundFormat {
        sound: sound(dst),
        crc,
        channels,
        positions,
    }
}

// The positions that a read of so many bytes from the file's byte `offset` on needs. `range` gets the first and one past the last, or the refusal's detail and a
// zero.
#[unsafe(no_mangle)]
pub extern "C" fn jangqeruz_query(
    range: &mut [u64; 2],
    dst: bool,
    crc: bool,
    channels: u8,
    positions: u32,
    lengths: &[u32],
    header: u64,
    trailer: u64,
    offset: u64,
    room: u64,
) -> u64
    ensures { Queried (query_of (format_of dst crc channels positions) lengths.now header trailer offset room) range.new result }
{
    let format = format(dst, crc, channels, positions);
    let needed = query(format, lengths, header, trailer, offset, room);
    *range = query_values(needed);
    number_of(needed) as u64
}

// The file's bytes from its byte `offset` on, into `out`. `filled` gets how many, or the refusal's detail. Of the positions that the query answers are lent: the lengths of their DST
// frames (`lent`) and these joined (`frames`), none for DSD; and their plain contents joined (`contents`), for DSD and for DST with CRCs.
#[unsafe(no_mangle)]
pub extern "C" fn jangqeruz_read(
    out: &mut [u8],
    filled: &mut [u64; 1],
    dst: bool,
    crc: bool,
    channels: u8,
    positions: u32,
    lengths: &[u32],
    header: &[u8],
    trailer: &[u8],
    offset: u64,
    lent: &[u32],
    frames: &[u8],
    contents: &[u8],
) -> u64
    ensures { ReadAnswered
        (request_of (format_of dst crc channels positions) lengths.now header.now trailer.now offset lent.now frames.now contents.now)
        out.old out.new filled.new result }
{
    let request = Request {
        format: format(dst, crc, channels, positions),
        lengths,
        header,
        trailer,
        offset,
        lent,
        frames,
        contents,
    };
    let answer = read(&request, out);
    *filled = [read_value(answer)];
    number_of(answer) as u64
}
