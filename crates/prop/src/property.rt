// The properties of the sound: the chunk PROP.
ghost use Rattle.std.specs.Prelude.{◌≡◌, ◌≤◌, take};
ghost use mathlib.Core.List.{◌++◌, flat_map};
ghost use Rattle.chunk.specs.Append.{Appended};
ghost use Rattle.chunk.specs.Number.{be};
ghost use Rattle.chunk_names.specs.Name.{Name, ascii};
ghost use Rattle.tree.specs.Tree.{bytes};
ghost use Rattle.prop.specs.Property.{lsco_is_on, id_of, content_of, is_property_written, property_chunk, property_chunks, property};

use chunk::Cursor;
use chunk_names::PropertyChunk;
use frame_time::time::{time, time_bytes};
use prop_fields::compression::{Sound, cmpr_data};
use prop_fields::layout::{ChannelNumbers, Layout, channel_count, channels, speaker_code};

const SAMPLE_RATE: u32 = 2_822_400;

// What PROP tells.
#[derive(Clone, Copy)]
pub struct Properties {
    pub sound: Sound,
    pub layout: Layout,
    pub channels: u8,
    pub numbers: Option<ChannelNumbers>, // of an unspecified layout
    pub start: Option<u32>, // the file's absolute start, in frames
    pub loudspeaker_configuration: bool, // whether LSCO is written
    pub unspecified_loudspeaker_configuration: bool, // the same of an unspecified layout
    pub d1: bool, // departure D1: the pad counted inside CMPR
}

// Whether LSCO is written.
fn lsco_is_on(p: Properties) -> bool
    ensures { result ≡ lsco_is_on p }
{
    match p.layout {
        Layout::Stereo | Layout::ThreeTwo | Layout::FivePointOne => p.loudspeaker_configuration,
        Layout::Unspecified => p.unspecified_loudspeaker_configuration,
    }
}

fn id(part: PropertyChunk) -> [u8; 4]
    ensures { result ≡ id_of part }
{
    match part {
        PropertyChunk::SampleRate => *b"FS  ",
        PropertyChunk::Channels => *b"CHNL",
        PropertyChunk::CompressionType => *b"CMPR",
        PropertyChunk::AbsoluteStartTime => *b"ABSS",
        PropertyChunk::LoudspeakerConfiguration => *b"LSCO",
    }
}

fn is_written(p: Properties, part: PropertyChunk) -> bool
    ensures { result ≡ is_property_written p part }
{
    match part {
        PropertyChunk::SampleRate | PropertyChunk::Channels | PropertyChunk::CompressionType =>
            true,
        PropertyChunk::AbsoluteStartTime => p.start.is_some(),
        PropertyChunk::LoudspeakerConfiguration => lsco_is_on(p),
    }
}

// The data of CHNL: the count and the names. Six names by value are 01's form; the first `count` of them are meant.
fn chnl_data(c: Cursor, out: &mut [u8], count: u16, names: [[u8; 4]; 6]) -> Cursor
    requires { count ≤ 6 }
    ensures { Appended out.old c.at (be 2 count ++ flat_map (λ (name : Name). name) (take count names)) out.new result.at }
{
    let mut c = c.be16(out, count);
    for name in &names[..count as usize] {
        c = c.name(out, *name);
    }
    c
}

// The data of a chunk of PROP.
fn content(c: Cursor, out: &mut [u8], p: Properties, part: PropertyChunk) -> Cursor
    ensures { Appended out.old c.at (content_of p part) out.new result.at }
{
    match part {
        PropertyChunk::SampleRate => c.be32(out, SAMPLE_RATE),
        PropertyChunk::Channels => {
            let count = channel_count(p.layout, p.channels);
            chnl_data(c, out, count, channels(p.layout, p.numbers))
        }
        PropertyChunk::CompressionType => cmpr_data(c, out, p.sound, p.d1),
        PropertyChunk::AbsoluteStartTime => time_bytes(c, out, time(p.start.unwrap_or(0) as u64)),
        PropertyChunk::LoudspeakerConfiguration => c.be16(out, speaker_code(p.layout)),
    }
}

// A chunk of PROP, if it is written.
fn property_chunk(c: Cursor, out: &mut [u8], p: Properties, part: PropertyChunk) -> Cursor
    ensures { Appended out.old c.at (bytes (property_chunk p part)) out.new result.at }
{
    if !is_written(p, part) {
        return c;
    }
    c.chunk_of(out, id(part), |c, out| content(c, out, p, part))
}

// The data of PROP: its form, and its chunks in their order.
fn property_data(c: Cursor, out: &mut [u8], order: [PropertyChunk; 5], p: Properties) -> Cursor
    ensures { Appended out.old c.at (ascii "SND " ++ bytes (property_chunks order p)) out.new result.at }
{
    let mut c = c.name(out, *b"SND ");
    for part in &order {
        c = property_chunk(c, out, p, *part);
    }
    c
}

// PROP.
pub fn property(c: Cursor, out: &mut [u8], order: [PropertyChunk; 5], p: Properties) -> Cursor
    ensures { Appended out.old c.at (bytes (property order p)) out.new result.at }
{
    c.chunk_of(out, *b"PROP", |c, out| property_data(c, out, order, p))
}
