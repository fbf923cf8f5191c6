// The area that is written, and its range.
ghost use Rattle.std.specs.Prelude.{◌≡◌};
ghost use Rattle.build_options.specs.Area.{area_positions, is_dst, unspecified};

use prop_fields::compression::Sound;
use prop_fields::layout::Layout;

#[derive(Clone, Copy)]
pub struct Area {
    pub sound: Sound,
    pub playtime: u32, // in frames
    pub channels: u8,
    pub layout: Layout,
    pub first: u32, // the range
    pub end: u32,
}

impl Area {
    // The positions of the range, none if it is turned round.
    pub fn positions(self) -> u32
        ensures { result ≡ area_positions self }
    {
        self.end.saturating_sub(self.first)
    }
}

pub fn is_dst(sound: Sound) -> bool
    ensures { result ≡ is_dst sound }
{
    match sound {
        Sound::Dsd => false,
        Sound::Dst => true,
    }
}

pub fn is_unspecified(layout: Layout) -> bool
    ensures { result ≡ unspecified layout }
{
    match layout {
        Layout::Stereo | Layout::ThreeTwo | Layout::FivePointOne => false,
        Layout::Unspecified => true,
    }
}
