// PROP. The bytes that it must have were taken out of the original's files.
use crate::print;
use chunk::Cursor;
use chunk_names::PropertyChunk;
use prop::property::Properties;
use prop_fields::compression::Sound;
use prop_fields::layout::{ChannelNumbers, Layout};
use std::io;

// The original's defaults: no channel numbers, no start, LSCO unless the layout is unspecified.
fn defaults(sound: Sound, layout: Layout, channels: u8, d1: bool) -> Properties {
    Properties {
        sound,
        layout,
        channels,
        numbers: None,
        start: None,
        loudspeaker_configuration: true,
        unspecified_loudspeaker_configuration: false,
        d1,
    }
}

// Channels 7, 42 and 999, a start, and LSCO of an unspecified layout alone.
fn numbered() -> Properties {
    Properties {
        sound: Sound::Dsd,
        layout: Layout::Unspecified,
        channels: 3,
        numbers: Some(ChannelNumbers {
            count: 3,
            numbers: [7, 42, 999, 0, 0, 0],
        }),
        start: Some(6_479_998),
        loudspeaker_configuration: false,
        unspecified_loudspeaker_configuration: true,
        d1: false,
    }
}

fn reversed() -> [PropertyChunk; 5] {
    [
        PropertyChunk::LoudspeakerConfiguration,
        PropertyChunk::AbsoluteStartTime,
        PropertyChunk::CompressionType,
        PropertyChunk::Channels,
        PropertyChunk::SampleRate,
    ]
}

fn property(
    rt: &impl Print,
    title: &str,
    order: [PropertyChunk; 5],
    p: Properties,
) -> io::Result<()> {
    let mut out = [0xEEu8; 160];
    let c = Cursor::new();
    let end = prop::property::property(c, &mut out, order, p);
    print!(rt; "PROP, {title}")?;
    print::written(rt, &out, end.at)
}

pub(crate) fn cases(rt: &impl Print) -> io::Result<()> {
    let order = PropertyChunk::table_order();
    let stereo = defaults(Sound::Dsd, Layout::Stereo, 2, false);
    let stereo_d1 = defaults(Sound::Dsd, Layout::Stereo, 2, true);
    let three_two = defaults(Sound::Dst, Layout::ThreeTwo, 5, false);
    let five_point_one = defaults(Sound::Dst, Layout::FivePointOne, 6, true);
    let unspecified = defaults(Sound::Dsd, Layout::Unspecified, 4, false);
    property(rt, "stereo DSD", order, stereo)?;
    property(rt, "stereo DSD, D1", order, stereo_d1)?;
    property(rt, "3/2 DST", order, three_two)?;
    property(rt, "5.1 DST, D1", order, five_point_one)?;
    property(rt, "unspecified DSD", order, unspecified)?;
    property(
        rt,
        "channels 7, 42 and 999, reversed, with start and LSCO",
        reversed(),
        numbered(),
    )
}
