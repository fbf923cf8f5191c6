// The numbers of PROP.
ghost use Rattle.std.specs.Prelude.{◌≡◌};
ghost use Rattle.meanings.specs.Property.{sound_of, layout_of, start_of, property_chunk_of, property_order_of};

use chunk_names::PropertyChunk;
use prop_fields::compression::Sound;
use prop_fields::layout::Layout;

pub fn sound(dst: bool) -> Sound
    ensures { result ≡ sound_of dst }
{
    if dst { Sound::Dst } else { Sound::Dsd }
}

// 0 is stereo, 1 is 3/2, 2 is 5.1, any other is unspecified.
pub fn layout(number: u8) -> Layout
    ensures { result ≡ layout_of number }
{
    match number {
        0 => Layout::Stereo,
        1 => Layout::ThreeTwo,
        2 => Layout::FivePointOne,
        _ => Layout::Unspecified,
    }
}

// A start that may be missing.
pub fn start(given: bool, frame: u32) -> Option<u32>
    ensures { result ≡ start_of given frame }
{
    given.then_some(frame)
}

// 0 is FS, 1 is CHNL, 2 is CMPR, 3 is ABSS, any other is LSCO.
pub fn property_chunk(number: u8) -> PropertyChunk
    ensures { result ≡ property_chunk_of number }
{
    match number {
        0 => PropertyChunk::SampleRate,
        1 => PropertyChunk::Channels,
        2 => PropertyChunk::CompressionType,
        3 => PropertyChunk::AbsoluteStartTime,
        _ => PropertyChunk::LoudspeakerConfiguration,
    }
}

pub fn property_order(numbers: [u8; 5]) -> [PropertyChunk; 5]
    ensures { result ≡ property_order_of numbers }
{
    numbers.map(property_chunk)
}
