// The sound chunk up to the first sound byte, and the sound's length.
ghost use Rattle.std.specs.Prelude.{◌≡◌, ◌<◌, ◌*◌, ◌^◌, ◌-◌, min};
ghost use Rattle.chunk.specs.Append.{Appended};
ghost use Rattle.dst.specs.Frame.{frame_bytes};
ghost use Rattle.build_options.specs.Area.{area_positions};
ghost use Rattle.file_tree.specs.Sound.{sound_size};
ghost use Rattle.file_tree.specs.Sized.{sound_head_sized};

use build_options::area::Area;
use chunk::Cursor;
use dst::frame::frame_bytes;
use dst::head::head_sized;
use dst::unit::units;
use prop_fields::compression::Sound;

// The length of DSD sound: so many frames.
#[tactic(auto, using(crate::proofs::SizeLaws::dsd_fits))]
fn dsd_size(area: Area) -> u64
    ensures { result ≡ area_positions area * frame_bytes area.channels }
{
    area.positions() as u64 * frame_bytes(area.channels) as u64
}

// The sound's length, at most the largest u64.
#[tactic(auto, using(crate::proofs::SizeLaws::dsd_fits), unfolding(file_tree::specs::Sound::sound_size))]
pub fn sound_size(area: Area, crc: bool, lengths: &[u32]) -> u64
    ensures value { result ≡ min (sound_size area.sound area crc lengths.now) (2 ^ 64 - 1) }
    ensures dsd_fits { area_positions area * frame_bytes area.channels < 2 ^ 64 }
{
    match area.sound {
        Sound::Dsd => dsd_size(area),
        Sound::Dst => units(crc, lengths),
    }
}

// The sound chunk's name and size and, of DST, FRTE, of so many bytes of sound in so many frames.
#[tactic(auto, unfolding(file_tree::specs::Sized::sound_head_sized))]
pub fn sound_head_sized(c: Cursor, out: &mut [u8], sound: Sound, size: u64, frames: usize) -> Cursor
    ensures { Appended out.old c.at (sound_head_sized sound size frames) out.new result.at }
{
    match sound {
        Sound::Dsd => c.chunk_head(out, *b"DSD ", size),
        Sound::Dst => head_sized(c, out, size, frames),
    }
}
