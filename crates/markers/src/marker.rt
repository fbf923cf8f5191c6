// Markers: the chunk MARK.
ghost use Rattle.std.specs.Prelude.{◌≡◌, ◌++◌, length};
ghost use Rattle.chunk.specs.Append.{Appended};
ghost use Rattle.chunk.specs.Number.{be};
ghost use Rattle.tree.specs.Tree.{bytes};
ghost use Rattle.texts.specs.Extent.{part};
ghost use Rattle.texts.specs.Text.{text_pad};
ghost use Rattle.markers.specs.Marker.{kind_number, flags_of, marker_text, frame_of, mark_head, mark};

use chunk::Cursor;
use frame_time::time::{time, time_bytes};
use texts::extent::Extent;
use texts::pools::Pools;
use texts::text::{TextOptions, TextRule, text_bytes, text_count, text_pad};

// The two fields of MARK that hold zero: the offset in samples, and the channel (0: all).
const OFFSET: u32 = 0;

const CHANNEL: u16 = 0;

#[derive(Clone, Copy)]
pub enum MarkerKind {
    TrackStart,
    TrackStop,
    ProgramStart,
    Index,
}

// The text of a marker: none, bytes of the byte pool as they are, or a title of the text pool, which is converted.
#[derive(Clone, Copy)]
pub enum MarkerText {
    Empty,
    Bytes(Extent),
    Title(Extent),
}

#[derive(Clone, Copy)]
pub struct Marker {
    pub frame: u32, // of the area
    pub kind: MarkerKind,
    pub track_flags: u16, // of a track start
    pub text: MarkerText,
}

// How markers are written: the options of their texts, the file's start, and the first frame of the range.
#[derive(Clone, Copy)]
pub struct Marking {
    pub text: TextOptions,
    pub start: Option<u32>, // the file's absolute start, in frames
    pub first: u32,
}

impl MarkerKind {
    pub fn value(self) -> u16
        ensures { result ≡ kind_number self }
    {
        match self {
            MarkerKind::TrackStart => 0,
            MarkerKind::TrackStop => 1,
            MarkerKind::ProgramStart => 2,
            MarkerKind::Index => 4,
        }
    }
}

// The flags that a marker is written with: only a track start has any.
fn flags(m: Marker) -> u16
    ensures { result ≡ flags_of m }
{
    match m.kind {
        MarkerKind::TrackStart => m.track_flags,
        _ => 0,
    }
}

// The frame whose time a marker is written with, from 0 on.
fn frame(how: Marking, m: Marker) -> u64
    ensures { result ≡ frame_of how m }
{
    (how.start.unwrap_or(0) as u64 + m.frame as u64).saturating_sub(how.first as u64)
}

// Bytes of the byte pool.
fn pool_bytes(c: Cursor, out: &mut [u8], raw: &[u8], e: Extent) -> Cursor
    ensures { Appended out.old c.at (part raw.now e) out.new result.at }
{
    c.bytes(out, &raw[e.first(raw.len())..e.end(raw.len())])
}

// How many they are.
fn pool_count(raw: &[u8], e: Extent) -> u32
    ensures { result ≡ length (part raw.now e) }
{
    (e.end(raw.len()) - e.first(raw.len())) as u32
}

// A marker's text.
fn marker_text(
    c: Cursor,
    out: &mut [u8],
    pools: &Pools<'_>,
    rule: TextRule,
    text: MarkerText,
) -> Cursor
    ensures { Appended out.old c.at (marker_text pools.now.text.now pools.now.bytes.now rule text) out.new result.at }
{
    match text {
        MarkerText::Empty => c,
        MarkerText::Bytes(e) => pool_bytes(c, out, pools.bytes, e),
        MarkerText::Title(e) => text_bytes(c, out, rule, pools.text, e),
    }
}

// How many bytes it has.
fn marker_text_count(pools: &Pools<'_>, rule: TextRule, text: MarkerText) -> u32
    ensures { result ≡ length (marker_text pools.now.text.now pools.now.bytes.now rule text) }
{
    match text {
        MarkerText::Empty => 0,
        MarkerText::Bytes(e) => pool_count(pools.bytes, e),
        MarkerText::Title(e) => text_count(rule, pools.text, e),
    }
}

// The 18 bytes before the text's count.
fn mark_head(c: Cursor, out: &mut [u8], how: Marking, m: Marker) -> Cursor
    ensures { Appended out.old c.at (mark_head how m) out.new result.at }
{
    let c = time_bytes(c, out, time(frame(how, m)));
    let c = c.be32(out, OFFSET);
    let c = c.be16(out, m.kind.value());
    let c = c.be16(out, CHANNEL);
    c.be16(out, flags(m))
}

// The data of MARK, of a text whose bytes were counted.
fn mark_data(
    c: Cursor,
    out: &mut [u8],
    count: u32,
    pools: &Pools<'_>,
    how: Marking,
    m: Marker,
) -> Cursor
    ensures { Appended out.old c.at
        (mark_head how m ++ (be 4 count ++ marker_text pools.now.text.now pools.now.bytes.now how.text.rule m.text) ++ text_pad how.text count)
        out.new result.at }
{
    let c = mark_head(c, out, how, m);
    let c = c.be32(out, count);
    let c = marker_text(c, out, pools, how.text.rule, m.text);
    text_pad(c, out, count, how.text)
}

// MARK.
pub fn mark(c: Cursor, out: &mut [u8], pools: &Pools<'_>, how: Marking, m: Marker) -> Cursor
    ensures { Appended out.old c.at (bytes (mark pools.now.text.now pools.now.bytes.now how m)) out.new result.at }
{
    let count = marker_text_count(pools, how.text.rule, m.text);
    // The slices one by one: of a closure that captures a struct of references it is not known what it appends.
    let Pools { text, bytes } = *pools;
    c.chunk_of(out, *b"MARK", |c, out| {
        mark_data(c, out, count, &Pools { text, bytes }, how, m)
    })
}
