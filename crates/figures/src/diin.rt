// DIIN and its markers. The bytes that it must have were taken out of the original's files.
use crate::print;
use chunk::Cursor;
use chunk_names::InfoChunk;
use master_info::diin::{Given, Info};
use master_info::pick::{ArtistTitle, ArtistTitleSource};
use std::io;
use texts::extent::Extent;
use texts::pools::Pools;
use texts::text::{TextOptions, TextRule};
use tracks::order::ProgramOptions;

// The words of rows: a track has start, duration, title start and title length; a marker frame, kind and flags, text start and
// text length.
static TOUCHING: [u32; 8] = [0, 75, 0, 0, 75, 75, 0, 0];

static APART: [u32; 8] = [0, 40, 0, 0, 60, 60, 0, 0];

static OUT_OF_ORDER: [u32; 8] = [75, 75, 0, 0, 0, 75, 0, 0];

static TITLED: [u32; 8] = [0, 75, 0, 4, 75, 75, 4, 5];

static GIVEN: [u32; 20] = [
    0, 0x2_0000, 0, 0, 0, 0x8001, 0, 3, 75, 0x4_8001, 3, 4, 150, 0x1_8001, 7, 1, 150, 0, 8, 2,
];

// "Onée" and "Zwei€"
static TITLES: [u32; 9] = [0x4F, 0x6E, 0xE9, 0x65, 0x5A, 0x77, 0x65, 0x69, 0x20AC];

fn diin<'a>(
    rt: &impl Print,
    title: &str,
    tracks: &'a [u32],
    markers: &'a [u32],
    order: [InfoChunk; 4],
    info: Info,
) -> io::Result<()> {
    let mut out = [0xEEu8; 320];
    let given = Given {
        pools: Pools {
            text: &TITLES,
            bytes: b"abcdefghij",
        },
        tracks,
        markers,
    };
    let end = master_info::diin::diin(Cursor::new(), &mut out, &given, order, info);
    print!(rt; "DIIN, {title}")?;
    print::written(rt, &out, end.at)
}

const NO_TEXTS: ArtistTitle = ArtistTitle {
    artist: None,
    title: None,
};

fn text(start: u32, length: u32) -> Option<Extent> {
    Some(Extent { start, length })
}

// Frames first to end of 150.
fn program(first: u32, end: u32, source_track: u16) -> ProgramOptions {
    ProgramOptions {
        first,
        end,
        playtime: 150,
        source_track,
        source_track_markers: true,
        clipped_program: true,
        titles: true,
    }
}

fn options(rule: TextRule) -> TextOptions {
    TextOptions {
        rule,
        empty_text: false,
        text_pad_counted: true,
    }
}

// Markers alone, from tracks unless custom ones are wanted.
fn only_markers(program: ProgramOptions, start: Option<u32>, custom_markers: bool) -> Info {
    Info {
        on: true,
        empty_info: false,
        emid: None,
        custom_markers,
        program,
        start,
        text: options(TextRule::D2),
        artist_title: false,
        artist_title_source: ArtistTitleSource::TrackThenAlbum,
        album: NO_TEXTS,
        track: NO_TEXTS,
    }
}

// EMID, the artist of the album and the title of the track, which has no artist.
fn texts() -> Info {
    Info {
        on: true,
        empty_info: false,
        emid: text(3, 3),
        custom_markers: true,
        program: program(0, 150, 2),
        start: None,
        text: TextOptions {
            rule: TextRule::Replace(b'?'),
            empty_text: false,
            text_pad_counted: false,
        },
        artist_title: true,
        artist_title_source: ArtistTitleSource::TrackThenAlbum,
        album: ArtistTitle {
            artist: text(0, 4),
            title: text(0, 2),
        },
        track: ArtistTitle {
            artist: None,
            title: text(4, 5),
        },
    }
}

// Nothing to tell.
fn nothing(on: bool, empty_info: bool) -> Info {
    Info {
        on,
        empty_info,
        emid: None,
        custom_markers: true,
        program: program(0, 150, 0),
        start: None,
        text: options(TextRule::Remove),
        artist_title: true,
        artist_title_source: ArtistTitleSource::TrackThenAlbum,
        album: NO_TEXTS,
        track: NO_TEXTS,
    }
}

fn reversed() -> [InfoChunk; 4] {
    [
        InfoChunk::Title,
        InfoChunk::Artist,
        InfoChunk::Markers,
        InfoChunk::EditedMasterId,
    ]
}

fn programs(rt: &impl Print) -> io::Result<()> {
    let order = InfoChunk::table_order();
    let whole = only_markers(program(0, 150, 0), None, false);
    let part = only_markers(program(10, 100, 0), Some(75), false);
    let second = only_markers(program(50, 140, 2), Some(0), false);
    let title = "tracks 0 to 75 and 75 to 150";
    diin(rt, title, &TOUCHING, &[], order, whole)?;
    let title = "frames 10 to 100 of tracks 0 to 40 and 60 to 120, start 75";
    diin(rt, title, &APART, &[], order, part)?;
    let title = "tracks out of order";
    diin(rt, title, &OUT_OF_ORDER, &[], order, whole)?;
    let title = "source track with its title";
    diin(rt, title, &TITLED, &[], order, second)
}

fn others(rt: &impl Print) -> io::Result<()> {
    let order = InfoChunk::table_order();
    let custom = only_markers(program(0, 150, 0), None, true);
    let title = "custom markers, pads counted";
    diin(rt, title, &TITLED, &GIVEN, order, custom)?;
    let title = "EMID, artist and title, reversed";
    diin(rt, title, &TITLED, &[], reversed(), texts())?;
    let title = "nothing in it";
    diin(rt, title, &[], &[], order, nothing(true, true))?;
    let title = "nothing in it, left out";
    diin(rt, title, &[], &[], order, nothing(true, false))?;
    diin(rt, "info off", &[], &[], order, nothing(false, true))
}

pub(crate) fn cases(rt: &impl Print) -> io::Result<()> {
    programs(rt)?;
    others(rt)
}
