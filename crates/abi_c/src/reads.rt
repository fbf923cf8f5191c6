// reads.rt of abi, for C.
ghost use Rattle.file_query.specs.Query.{query_of};
ghost use Rattle.file_read.specs.Read.{request_of};
ghost use Rattle.abi.specs.Reads.{format_of, Queried, ReadAnswered};

#[unsafe(no_mangle)]
pub extern "C" fn jangqeruz_query(
    range: &mut [u64; 2],
    dst: bool,
    crc: bool,
    channels: u8,
    positions: u32,
    lengths: &[u32],
    header: u64,
    trailer: u64,
    offset: u64,
    room: u64,
) -> u64
    ensures { Queried (query_of (format_of dst crc channels positions) lengths.now header trailer offset room) range.new result }
{
    abi::reads::jangqeruz_query(
        range, dst, crc, channels, positions, lengths, header, trailer, offset, room,
    )
}

#[unsafe(no_mangle)]
pub extern "C" fn jangqeruz_read(
    out: &mut [u8],
    filled: &mut [u64; 1],
    dst: bool,
    crc: bool,
    channels: u8,
    positions: u32,
    lengths: &[u32],
    header: &[u8],
    trailer: &[u8],
    offset: u64,
    lent: &[u32],
    frames: &[u8],
    contents: &[u8],
) -> u64
    ensures { ReadAnswered
        (request_of (format_of dst crc channels positions) lengths.now header.now trailer.now offset lent.now frames.now contents.now)
        out.old out.new filled.new result }
{
    abi::reads::jangqeruz_read(
        out, filled, dst, crc, channels, positions, lengths, header, trailer, offset, lent, frames,
        contents,
    )
}
