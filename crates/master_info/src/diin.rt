// The edited master information: the chunk DIIN.
ghost use Rattle.std.specs.Prelude.{◌≡◌, ◌&&◌, ◌||◌, not, eqb};
ghost use Rattle.chunk.specs.Append.{Appended};
ghost use Rattle.tree.specs.Tree.{bytes, each};
ghost use Rattle.markers.specs.Marker.{mark};
ghost use Rattle.master_info.specs.Diin.{marking, chosen, emid, markers_of, info_chunk, info_chunks, diin};

use crate::pick::{ArtistTitle, ArtistTitleSource, pick};
use chunk::Cursor;
use chunk_names::InfoChunk;
use diin_texts::diin_text::diin_text;
use markers::custom::custom;
use markers::marker::Marking;
use texts::extent::Extent;
use texts::pools::Pools;
use texts::text::TextOptions;
use track_markers::from_toc::from_toc;
use tracks::order::ProgramOptions;

// What DIIN tells.
#[derive(Clone, Copy)]
pub struct Info {
    pub on: bool, // whether there is a DIIN; beside the rest, as the exported function is told it
    pub empty_info: bool, // whether one without chunks is written
    pub emid: Option<Extent>, // bytes of the byte pool, written if given
    pub custom_markers: bool, // whether the markers are those given, not made from tracks
    pub program: ProgramOptions,
    pub start: Option<u32>, // the file's absolute start, in frames
    pub text: TextOptions,
    pub artist_title: bool, // whether DIAR and DITI are wanted; beside the texts, likewise
    pub artist_title_source: ArtistTitleSource,
    pub album: ArtistTitle,
    pub track: ArtistTitle,
}

// What a build is lent that DIIN is made of: the pools, and the rows of tracks and of given markers.
#[derive(Clone, Copy)]
pub struct Given<'a> {
    pub pools: Pools<'a>,
    pub tracks: &'a [u32],
    pub markers: &'a [u32],
}

// EMID: its bytes as they are.
fn emid(c: Cursor, out: &mut [u8], raw: &[u8], id: Option<Extent>) -> Cursor
    ensures { Appended out.old c.at (bytes (emid raw.now id)) out.new result.at }
{
    match id {
        Some(e) => c.chunk(out, *b"EMID", &raw[e.first(raw.len())..e.end(raw.len())]),
        None => c,
    }
}

// The markers, each a MARK.
fn markers(c: Cursor, out: &mut [u8], given: &Given<'_>, info: Info) -> Cursor
    ensures { Appended out.old c.at
        (bytes (each (mark given.now.pools.text.now given.now.pools.bytes.now (marking info)) (markers_of given.now.tracks.now given.now.markers.now info)))
        out.new result.at }
{
    let how = Marking {
        text: info.text,
        start: info.start,
        first: info.program.first,
    };
    if info.custom_markers {
        custom(c, out, &given.pools, given.markers, how)
    } else {
        from_toc(c, out, &given.pools, given.tracks, how, info.program)
    }
}

// One of the texts of track and album, if they are wanted.
fn chosen(info: Info, track: Option<Extent>, album: Option<Extent>) -> Option<Extent>
    ensures { result ≡ chosen info track album }
{
    if info.artist_title {
        let has_source = info.program.source_track != 0;
        pick(info.artist_title_source, has_source, track, album)
    } else {
        None
    }
}

// A chunk of DIIN, or the run of MARK chunks.
fn info_chunk(c: Cursor, out: &mut [u8], given: &Given<'_>, info: Info, part: InfoChunk) -> Cursor
    ensures { Appended out.old c.at
        (bytes (info_chunk given.now.pools.text.now given.now.pools.bytes.now given.now.tracks.now given.now.markers.now info part))
        out.new result.at }
{
    match part {
        InfoChunk::EditedMasterId => emid(c, out, given.pools.bytes, info.emid),
        InfoChunk::Markers => markers(c, out, given, info),
        InfoChunk::Artist => {
            let text = chosen(info, info.track.artist, info.album.artist);
            diin_text(c, out, *b"DIAR", given.pools.text, text, info.text)
        }
        InfoChunk::Title => {
            let text = chosen(info, info.track.title, info.album.title);
            diin_text(c, out, *b"DITI", given.pools.text, text, info.text)
        }
    }
}

// The data of DIIN: its chunks in their order.
fn diin_data(
    c: Cursor,
    out: &mut [u8],
    given: &Given<'_>,
    order: [InfoChunk; 4],
    info: Info,
) -> Cursor
    ensures { Appended out.old c.at
        (bytes (info_chunks given.now.pools.text.now given.now.pools.bytes.now given.now.tracks.now given.now.markers.now info order))
        out.new result.at }
{
    let mut c = c;
    for part in &order {
        c = info_chunk(c, out, given, info, *part);
    }
    c
}

// Whether there is a DIIN, by its measured size, which stops at the largest number.
#[tactic(auto, using(std::proofs::lemmas::Bool::Decides::nat_tests))]
fn is_written(info: Info, size: usize) -> bool
    ensures { result ≡ (info.on && ((info.empty_info || not (eqb size 0)) && not (eqb size usize.MAX))) }
{
    info.on && (info.empty_info || size != 0) && size != usize::MAX
}

// DIIN: none if info is off, if it would be empty, unless that is wanted, or if its size passes what a cursor can tell.
pub fn diin(
    c: Cursor,
    out: &mut [u8],
    given: &Given<'_>,
    order: [InfoChunk; 4],
    info: Info,
) -> Cursor
    ensures { Appended out.old c.at
        (bytes (diin given.now.pools.text.now given.now.pools.bytes.now given.now.tracks.now given.now.markers.now info order))
        out.new result.at }
{
    let measured = diin_data(Cursor::new(), &mut [], given, order, info);
    if !is_written(info, measured.at) {
        return c;
    }
    // Not by `chunk_of`: of a closure that captures a struct of references it is not known what it appends (the goal `returns`
    // stays open), and its four slices one by one are no plainer.
    let size_at = c.name(out, *b"DIIN");
    let from = size_at.data_start(out.len());
    let end = diin_data(Cursor::new(), &mut out[from..], given, order, info);
    size_at.close(out, end)
}
