// The query: which positions a read of a whole file needs.
ghost use Rattle.std.specs.Prelude.{◌≡◌};
ghost use Rattle.sound_reads.specs.Positions.{positions_for};
ghost use Rattle.read_rules.specs.Format.{unit_sizes};
ghost use Rattle.file_query.specs.Query.{query_of};

use prop_fields::compression::Sound;
use read_answer::answer::QueryAnswer;
use read_rules::format::SoundFormat;
use sound_reads::place::Positions;

// The positions that so many bytes from a place of the sound on touch.
fn sound_positions(format: SoundFormat, lengths: &[u32], from: u64, count: u64) -> Positions
    ensures { result ≡ positions_for (unit_sizes format lengths.now) from count }
{
    match format.sound {
        Sound::Dsd => dsd_reads::dsd_data::positions(
            format.channels,
            format.positions,
            from,
            count,
        ),
        Sound::Dst => dst_reads::dst_data::positions(format.crc, lengths, from, count),
    }
}

// The positions that a read of so many bytes from the file's byte `offset` on needs: the first and one past the last, 0 and 0 for none. Header and
// trailer have so many bytes.
#[tactic(auto, unfolding(crate::specs::Query::query_of, read_rules::specs::Needed::needed))]
pub fn query(
    format: SoundFormat,
    lengths: &[u32],
    header: u64,
    trailer: u64,
    offset: u64,
    room: u64,
) -> QueryAnswer
    ensures { result ≡ query_of format lengths.now header trailer offset room }
{
    format.fault(lengths, header, trailer)?;
    let from = offset.saturating_sub(header);
    let count = room.saturating_sub(header.saturating_sub(offset));
    Ok(sound_positions(format, lengths, from, count))
}
