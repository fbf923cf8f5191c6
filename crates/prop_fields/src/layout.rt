// Speaker layouts: the names of the channels, and the code that LSCO tells.
ghost use Rattle.std.specs.Prelude.{◌≡◌, map};
ghost use Rattle.prop_fields.specs.Layout.{numbers_of, digit, channel_name, channel_count, six_names, speaker_code};

// The speakers of an area.
#[derive(Clone, Copy, PartialEq, Eq)]
pub enum Layout {
    Stereo,
    ThreeTwo,
    FivePointOne,
    Unspecified,
}

// The numbers of an unspecified layout's channels: how many were given, and six places for them. The count is as told, and may pass six (refusal 25).
#[derive(Clone, Copy)]
pub struct ChannelNumbers {
    pub count: u32,
    pub numbers: [u16; 6],
}

// A name that no channel has.
const UNUSED: [u8; 4] = [0; 4];

const DEFAULT_NUMBERS: [u16; 6] = [0, 1, 2, 3, 4, 5];

// The numbers, by default 0 upward.
fn numbers_of(given: Option<ChannelNumbers>) -> [u16; 6]
    ensures { result ≡ numbers_of given }
{
    match given {
        Some(channels) => channels.numbers,
        None => DEFAULT_NUMBERS,
    }
}

fn digit(n: u16) -> u8
    ensures { result ≡ digit n }
{
    b'0' + (n % 10) as u8
}

// The letter C and three digits. Of a number above 999, the last three.
fn channel_name(n: u16) -> [u8; 4]
    ensures { result ≡ channel_name n }
{
    [b'C', digit(n / 100), digit(n / 10), digit(n)]
}

// How many channels a layout names. The channels of an unspecified one are as many as are given, at most six.
pub fn channel_count(layout: Layout, channels: u8) -> u16
    ensures { result ≡ channel_count layout channels }
{
    match layout {
        Layout::Stereo => 2,
        Layout::ThreeTwo => 5,
        Layout::FivePointOne => 6,
        Layout::Unspecified => u16::from(channels.min(6)),
    }
}

// The names of a layout's channels: the first `channel_count` of six.
pub fn channels(layout: Layout, numbers: Option<ChannelNumbers>) -> [[u8; 4]; 6]
    ensures { result ≡ six_names layout numbers }
{
    match layout {
        Layout::Stereo => {
            let [left, right] = chunk_names::stereo();
            [left, right, UNUSED, UNUSED, UNUSED, UNUSED]
        }
        Layout::ThreeTwo => {
            let [left, right, center, left_surround, right_surround] = chunk_names::three_two();
            [left, right, center, left_surround, right_surround, UNUSED]
        }
        Layout::FivePointOne => chunk_names::five_point_one(),
        Layout::Unspecified => unspecified(numbers),
    }
}

// The names of an unspecified layout's channels.
fn unspecified(numbers: Option<ChannelNumbers>) -> [[u8; 4]; 6]
    ensures { result ≡ map channel_name (numbers_of numbers) }
{
    numbers_of(numbers).map(channel_name)
}

// What LSCO tells of a layout.
pub fn speaker_code(layout: Layout) -> u16
    ensures { result ≡ speaker_code layout }
{
    match layout {
        Layout::Stereo => 0,
        Layout::ThreeTwo => 3,
        Layout::FivePointOne => 4,
        Layout::Unspecified => 65_535,
    }
}
