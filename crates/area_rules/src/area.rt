// The area and its range (6 to 12).
ghost use Rattle.std.specs.Prelude.{◌≡◌};
ghost use Rattle.area_rules.specs.Area.{lengths_wanted, area_fault, lengths_fault, range_fault, area_faults};

use build_options::area::{Area, is_dst};
use prop_fields::layout::channel_count;
use refusal::verdict::{Refusal, Verdict, refuse_if};
use rows::lengths::lengths_wrong;

// The last frame of an area, and the longest playtime.
pub(crate) const LONGEST_PLAYTIME: u32 = 1_151_999;

// How many lengths are to be given: one a position for DST, none for DSD.
fn lengths_wanted(area: Area) -> u32
    ensures { result ≡ lengths_wanted area }
{
    if is_dst(area.sound) {
        area.positions()
    } else {
        0
    }
}

// 6 to 8
#[tactic(auto, using(refusal::proofs::VerdictLaws::in_turn), unfolding(crate::specs::Area::area_fault))]
fn area_fault(area: Area) -> Verdict
    ensures { result ≡ area_fault area }
{
    let named = channel_count(area.layout, area.channels);
    refuse_if(LONGEST_PLAYTIME < area.playtime, Refusal::Playtime)?;
    refuse_if(area.channels < 1 || 6 < area.channels, Refusal::Channels)?;
    refuse_if(named != area.channels as u16, Refusal::ChannelsOfLayout)
}

// 9 and 10
#[tactic(auto, using(refusal::proofs::VerdictLaws::in_turn), unfolding(crate::specs::Area::lengths_fault))]
fn lengths_fault(area: Area, lengths: &[u32]) -> Verdict
    ensures { result ≡ lengths_fault area lengths.now }
{
    let turned = is_dst(area.sound) && area.end < area.first;
    let wanted = lengths_wanted(area);
    refuse_if(
        turned || lengths.len() as u64 != wanted as u64,
        Refusal::LengthsCount,
    )?;
    refuse_if(lengths_wrong(lengths), Refusal::FrameLength)
}

// 11 and 12
#[tactic(auto, using(refusal::proofs::VerdictLaws::in_turn), unfolding(crate::specs::Area::range_fault))]
fn range_fault(area: Area) -> Verdict
    ensures { result ≡ range_fault area }
{
    refuse_if(
        area.end < area.first || area.playtime < area.end,
        Refusal::Range,
    )?;
    refuse_if(area.first == area.end, Refusal::EmptyRange)
}

// 6 to 12
#[tactic(auto, using(refusal::proofs::VerdictLaws::in_turn), unfolding(crate::specs::Area::area_faults))]
pub fn area_faults(area: Area, lengths: &[u32]) -> Verdict
    ensures { result ≡ area_faults area lengths.now }
{
    area_fault(area)?;
    lengths_fault(area, lengths)?;
    range_fault(area)
}
