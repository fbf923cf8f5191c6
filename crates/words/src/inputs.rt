// The area and the options of a build: words 0 to 51.
ghost use Rattle.std.specs.Prelude.{◌≡◌};
ghost use Rattle.build_options.specs.Inputs.{inputs_of};
ghost use Rattle.words.specs.Inputs.{area_of, channel_numbers_of, choices_of, inputs_told};

use crate::orders::{info_order, local_order, property_order};
use build_options::area::Area;
use build_options::inputs::{Inputs, Lent};
use build_options::options::Options;
use master_info::pick::ArtistTitle;
use meanings::diin::artist_title_source;
use meanings::options::{artist_title, replacement};
use meanings::property::{layout, sound, start};
use meanings::sound::offset;
use prop_fields::layout::ChannelNumbers;
use single_words::word::{byte, half, is_set, text_at, word};
use texts::extent::Extent;

#[tactic(auto, unfolding(crate::specs::Inputs::area_of))]
pub fn area_of(words: &[u32]) -> Area
    ensures { result ≡ area_of words.now }
{
    Area {
        sound: sound(is_set(words, 0)),
        playtime: word(words, 1),
        channels: byte(words, 2),
        layout: layout(byte(words, 3)),
        first: word(words, 4),
        end: word(words, 5),
    }
}

#[tactic(auto, unfolding(crate::specs::Inputs::channel_numbers_of))]
pub fn channel_numbers(words: &[u32]) -> Option<ChannelNumbers>
    ensures { result ≡ channel_numbers_of words.now }
{
    is_set(words, 6).then_some(ChannelNumbers {
        count: word(words, 7),
        numbers: [8, 9, 10, 11, 12, 13].map(|i| half(words, i)),
    })
}

#[tactic(auto, unfolding(crate::specs::Inputs::choices_of))]
pub fn options_of(words: &[u32]) -> Options
    ensures { result ≡ choices_of words.now }
{
    Options {
        channel_numbers: channel_numbers(words),
        unspecified_loudspeaker_configuration: is_set(words, 14),
        loudspeaker_configuration: is_set(words, 15),
        absolute_start: start(is_set(words, 16), word(words, 17)),
        dst_crc: is_set(words, 18),
        dst_index: is_set(words, 19),
        dst_index_offset: offset(is_set(words, 20)),
        source_track: half(words, 21),
        edited_master: is_set(words, 22),
        edited_master_info: is_set(words, 23),
        edited_master_id_written: is_set(words, 24),
        edited_master_id: Extent {
            start: word(words, 25),
            length: word(words, 26),
        },
        custom_markers: is_set(words, 27),
        source_track_markers: is_set(words, 28),
        clipped_program: is_set(words, 29),
        marker_titles: is_set(words, 30),
        text_pad_counted: is_set(words, 31),
        artist_title: artist_title(word(words, 32)),
        artist_title_source: artist_title_source(byte(words, 33)),
        album: ArtistTitle {
            artist: text_at(words, 34),
            title: text_at(words, 37),
        },
        track: ArtistTitle {
            artist: text_at(words, 40),
            title: text_at(words, 43),
        },
        text_replacement: replacement(is_set(words, 46), byte(words, 47)),
        empty_text: is_set(words, 48),
        empty_info: is_set(words, 49),
        d1: is_set(words, 50),
        d2: is_set(words, 51),
    }
}

// The inputs of a build that are told as words, with what is lent beside them.
#[tactic(auto, unfolding(crate::specs::Inputs::inputs_of_words))]
pub fn inputs_of<'a>(words: &[u32], lent: &Lent<'a>) -> Inputs<'a>
    ensures { inputs_of result ≡ inputs_told words.now lent.now }
{
    Inputs {
        area: area_of(words),
        options: options_of(words),
        property_order: property_order(words),
        info_order: info_order(words),
        local_order: local_order(words),
        local_count: word(words, 66),
        lent: *lent,
    }
}
