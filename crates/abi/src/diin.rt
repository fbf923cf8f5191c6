// DIIN. What is written into `out` is what fits of it; the answer is the length of all of it.
ghost use Rattle.chunk.specs.Append.{Appended};
ghost use Rattle.tree.specs.Tree.{bytes};
ghost use Rattle.master_info.specs.Diin.{diin};
ghost use Rattle.meanings.specs.Text.{options_of};
ghost use Rattle.meanings.specs.Property.{start_of};
ghost use Rattle.meanings.specs.Diin.{given_text, source_of, info_order_of};

use chunk::Cursor;
use master_info::diin::{Given, Info, diin};
use master_info::pick::ArtistTitle;
use meanings::diin::{artist_title_source, given_text, info_order};
use meanings::property::start;
use meanings::text::options;
use texts::pools::Pools;
use tracks::order::ProgramOptions;

// DIIN, its chunks in the order of these numbers. EMID and the texts of custom markers are bytes of `raw`, the other texts values of `pool`.
#[unsafe(no_mangle)]
pub extern "C" fn jangqeruz_diin(
    out: &mut [u8],
    pool: &[u32],
    raw: &[u8],
    tracks: &[u32],
    custom: &[u32],
    order: &[u8; 4],
    on: bool,
    empty_info: bool,
    emid: &[u32; 3],
    custom_markers: bool,
    first: u32,
    end: u32,
    playtime: u32,
    source_track: u16,
    source_track_markers: bool,
    clipped_program: bool,
    titles: bool,
    start_given: bool,
    start_frame: u32,
    rule_number: u8,
    replacement: u8,
    empty_text: bool,
    text_pad_counted: bool,
    artist_title: bool,
    source_number: u8,
    album_artist: &[u32; 3],
    album_title: &[u32; 3],
    track_artist: &[u32; 3],
    track_title: &[u32; 3],
) -> usize
    ensures { Appended out.old 0
        (bytes (diin pool.now raw.now tracks.now custom.now (record {
          on = on;
          empty_info = empty_info;
          emid = given_text emid.now;
          custom_markers = custom_markers;
          program = record {
            first = first;
            end = end;
            playtime = playtime;
            source_track = source_track;
            source_track_markers = source_track_markers;
            clipped_program = clipped_program;
            titles = titles;
          };
          start = start_of start_given start_frame;
          text = options_of rule_number replacement empty_text text_pad_counted;
          artist_title = artist_title;
          artist_title_source = source_of source_number;
          album = record { artist = given_text album_artist.now; title = given_text album_title.now };
          track = record { artist = given_text track_artist.now; title = given_text track_title.now };
        }) (info_order_of order.now)))
        out.new result }
{
    let info = Info {
        on,
        empty_info,
        emid: given_text(*emid),
        custom_markers,
        program: ProgramOptions {
            first,
            end,
            playtime,
            source_track,
            source_track_markers,
            clipped_program,
            titles,
        },
        start: start(start_given, start_frame),
        text: options(rule_number, replacement, empty_text, text_pad_counted),
        artist_title,
        artist_title_source: artist_title_source(source_number),
        album: ArtistTitle {
            artist: given_text(*album_artist),
            title: given_text(*album_title),
        },
        track: ArtistTitle {
            artist: given_text(*track_artist),
            title: given_text(*track_title),
        },
    };
    let given = Given {
        pools: Pools {
            text: pool,
            bytes: raw,
        },
        tracks,
        markers: custom,
    };
    diin(Cursor::new(), out, &given, info_order(*order), info).at
}
