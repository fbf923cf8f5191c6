// The numbers of DIIN.
ghost use Rattle.std.specs.Prelude.{◌≡◌};
ghost use Rattle.meanings.specs.Diin.{given_text, source_of, info_chunk_of, info_order_of};

use crate::text::text;
use chunk_names::InfoChunk;
use master_info::pick::ArtistTitleSource;
use texts::extent::Extent;

// A text of three words: whether it is given (0: no), start, length.
pub fn given_text(words: [u32; 3]) -> Option<Extent>
    ensures { result ≡ given_text words }
{
    let [given, start, length] = words;
    text(given != 0, start, length)
}

// 0 is the album's, 1 the track's, any other the track's, then the album's.
pub fn artist_title_source(number: u8) -> ArtistTitleSource
    ensures { result ≡ source_of number }
{
    match number {
        0 => ArtistTitleSource::Album,
        1 => ArtistTitleSource::Track,
        _ => ArtistTitleSource::TrackThenAlbum,
    }
}

// 0 is EMID, 1 all MARK, 2 is DIAR, any other is DITI.
pub fn info_chunk(number: u8) -> InfoChunk
    ensures { result ≡ info_chunk_of number }
{
    match number {
        0 => InfoChunk::EditedMasterId,
        1 => InfoChunk::Markers,
        2 => InfoChunk::Artist,
        _ => InfoChunk::Title,
    }
}

pub fn info_order(numbers: [u8; 4]) -> [InfoChunk; 4]
    ensures { result ≡ info_order_of numbers }
{
    numbers.map(info_chunk)
}
