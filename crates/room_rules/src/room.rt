// The room in the buffers of header and trailer (40 and 41).
ghost use Rattle.std.specs.Prelude.{◌≡◌};
ghost use Rattle.room_rules.specs.Room.{room_faults};

use refusal::verdict::{Refusal, Verdict, refuse_if};

// 40 and 41, where header and trailer have these lengths and the buffers those.
#[tactic(auto, using(refusal::proofs::VerdictLaws::refused_here, refusal::proofs::VerdictLaws::accepted_here), unfolding(crate::specs::Room::room_faults))]
pub fn room_faults(header: u64, trailer: u64, header_room: usize, trailer_room: usize) -> Verdict
    ensures { result ≡ room_faults header trailer header_room trailer_room }
{
    refuse_if(
        (header_room as u64) < header,
        Refusal::HeaderRoom { needed: header },
    )?;
    refuse_if(
        (trailer_room as u64) < trailer,
        Refusal::TrailerRoom { needed: trailer },
    )
}
