// The options of a build, their defaults, and what an edited master changes of them.
ghost use Rattle.std.specs.Prelude.{◌≡◌};
ghost use Rattle.build_options.specs.Options.{text_extent, defaults, effective, text_rule, text_options, info_of, program_options, tag_rows, id_row};

use crate::area::Area;
use dst_index::index::DstIndexOffset;
use master_info::diin::Info;
use master_info::pick::{ArtistTitle, ArtistTitleSource};
use prop_fields::layout::ChannelNumbers;
use texts::extent::Extent;
use texts::text::{TextOptions, TextRule};
use tracks::order::ProgramOptions;

// What a caller chooses, beside the orders of chunks. Texts are extents of the lent pools.
#[derive(Clone, Copy)]
pub struct Options {
    pub channel_numbers: Option<ChannelNumbers>, // of an unspecified layout, by default 0 upward
    pub unspecified_loudspeaker_configuration: bool, // whether such a layout has LSCO
    pub loudspeaker_configuration: bool, // whether a defined one has
    pub absolute_start: Option<u32>, // in frames
    pub dst_crc: bool, // whether each DSTF is followed by DSTC
    pub dst_index: bool, // whether a DST file has DSTI
    pub dst_index_offset: DstIndexOffset,
    pub source_track: u16, // from 1 on, 0 for none: a number, as the words tell it and `EveryWordExact` has it
    pub edited_master: bool,
    pub edited_master_info: bool, // whether there is a DIIN
    pub edited_master_id_written: bool, // whether DIIN has EMID
    pub edited_master_id: Extent, // its bytes; looked at though it is not written
    pub custom_markers: bool, // whether the markers are those given, not made from tracks
    pub source_track_markers: bool, // whether a source track gives markers
    pub clipped_program: bool, // whether a range that is not the play range does
    pub marker_titles: bool, // whether a track's start has its title
    pub text_pad_counted: bool, // whether the pad after a text is inside the chunk's size
    pub artist_title: Option<bool>, // whether DIIN has artist and title, by default if it is an edited master
    pub artist_title_source: ArtistTitleSource,
    pub album: ArtistTitle,
    pub track: ArtistTitle, // of the source track
    pub text_replacement: Option<u8>, // what stands for a value that is no text byte; without it such a value is removed
    pub empty_text: bool, // whether a text without bytes is written
    pub empty_info: bool, // whether a DIIN without chunks is
    pub d1: bool, // departure D1: the pad counted inside CMPR
    pub d2: bool, // departure D2: texts in ISO 8859-1
}

// What holds in the end of the options that an edited master changes.
#[derive(Clone, Copy)]
pub struct Settings {
    pub start: Option<u32>,
    pub info: bool,
    pub artist_title: bool,
    pub source_track: u16,
}

const NO_TEXT: Extent = Extent {
    start: 0,
    length: 0,
};

const NO_TEXTS: ArtistTitle = ArtistTitle {
    artist: None,
    title: None,
};

#[tactic(auto, unfolding(crate::specs::Options::defaults))]
pub fn defaults() -> Options
    ensures { result ≡ defaults }
{
    Options {
        channel_numbers: None,
        unspecified_loudspeaker_configuration: false,
        loudspeaker_configuration: true,
        absolute_start: None,
        dst_crc: false,
        dst_index: true,
        dst_index_offset: DstIndexOffset::ChunkHeader,
        source_track: 0,
        edited_master: false,
        edited_master_info: false,
        edited_master_id_written: true,
        edited_master_id: NO_TEXT,
        custom_markers: false,
        source_track_markers: false,
        clipped_program: false,
        marker_titles: false,
        text_pad_counted: false,
        artist_title: None,
        artist_title_source: ArtistTitleSource::Album,
        album: NO_TEXTS,
        track: NO_TEXTS,
        text_replacement: Some(b'?'),
        empty_text: false,
        empty_info: true,
        d1: false,
        d2: false,
    }
}

// What an edited master changes: a missing start is 0, info is on, artist and title are there unless switched off, and there is no source track.
#[tactic(auto, unfolding(crate::specs::Options::effective))]
pub fn effective(o: Options) -> Settings
    ensures { result ≡ effective o }
{
    let artist_title = o.artist_title.unwrap_or(o.edited_master);
    if o.edited_master {
        Settings {
            start: Some(o.absolute_start.unwrap_or(0)),
            info: true,
            artist_title,
            source_track: 0,
        }
    } else {
        Settings {
            start: o.absolute_start,
            info: o.edited_master_info,
            artist_title,
            source_track: o.source_track,
        }
    }
}

// How values become text bytes. Under D2 the replacement is idle.
fn rule_of(d2: bool, replacement: Option<u8>) -> TextRule
    ensures { result ≡ text_rule d2 replacement }
{
    match replacement {
        _ if d2 => TextRule::D2,
        Some(byte) => TextRule::Replace(byte),
        None => TextRule::Remove,
    }
}

pub fn text_options(o: Options) -> TextOptions
    ensures { result ≡ text_options o }
{
    TextOptions {
        rule: rule_of(o.d2, o.text_replacement),
        empty_text: o.empty_text,
        text_pad_counted: o.text_pad_counted,
    }
}

// What decides the markers that are made from tracks.
fn program_options(area: Area, o: Options, s: Settings) -> ProgramOptions
    ensures { result ≡ program_options area o s }
{
    ProgramOptions {
        first: area.first,
        end: area.end,
        playtime: area.playtime,
        source_track: s.source_track,
        source_track_markers: o.source_track_markers,
        clipped_program: o.clipped_program,
        titles: o.marker_titles,
    }
}

// What DIIN tells.
pub fn info_of(area: Area, o: Options, s: Settings) -> Info
    ensures { result ≡ info_of area o s }
{
    Info {
        on: s.info,
        empty_info: o.empty_info,
        emid: o.edited_master_id_written.then_some(o.edited_master_id),
        custom_markers: o.custom_markers,
        program: program_options(area, o, s),
        start: s.start,
        text: text_options(o),
        artist_title: s.artist_title,
        artist_title_source: o.artist_title_source,
        album: o.album,
        track: o.track,
    }
}

// The extent of a text; of one that is missing, an empty one.
fn extent_of(text: Option<Extent>) -> Extent
    ensures { result ≡ text_extent text }
{
    text.unwrap_or(NO_TEXT)
}

// The extents of the artists and titles, as rows.
pub fn tag_rows(album: ArtistTitle, track: ArtistTitle) -> [u32; 8]
    ensures { result ≡ tag_rows album track }
{
    let a = extent_of(album.artist);
    let b = extent_of(album.title);
    let c = extent_of(track.artist);
    let d = extent_of(track.title);
    [
        a.start, a.length, b.start, b.length, c.start, c.length, d.start, d.length,
    ]
}

// The extent of EMID's bytes, as a row.
pub fn id_row(id: Extent) -> [u32; 2]
    ensures { result ≡ id_row id }
{
    [id.start, id.length]
}
