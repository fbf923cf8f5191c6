// What PROP tells, and the replacement byte (24 to 29).
ghost use Rattle.std.specs.Prelude.{◌≡◌, map};
ghost use Rattle.refusal.specs.Orders.{property_rank, each_once};
ghost use Rattle.rules.specs.Property.{replacement_wrong, numbers_fault, start_fault, property_faults};

use build_options::area::{Area, is_unspecified};
use build_options::options::{Options, Settings};
use channel_rules::channel_numbers::number_faults;
use chunk_names::PropertyChunk;
use prop_fields::layout::ChannelNumbers;
use refusal::orders::each_once;
use refusal::verdict::{Refusal, Verdict, refuse_if};
use texts::text::printable;

// The last frame of a day.
const LAST_FRAME_OF_DAY: u64 = 6_479_999;

fn replacement_wrong(replacement: Option<u8>) -> bool
    ensures { result ≡ replacement_wrong replacement }
{
    match replacement {
        Some(byte) => !printable(byte as u32),
        None => false,
    }
}

// 25 to 27, of an unspecified layout whose channel numbers are given
#[tactic(auto, using(refusal::proofs::VerdictLaws::in_turn), unfolding(crate::specs::Property::numbers_fault))]
fn numbers_fault(area: Area, numbers: Option<ChannelNumbers>) -> Verdict
    ensures { result ≡ numbers_fault area numbers }
{
    match numbers {
        Some(given) if is_unspecified(area.layout) => {
            refuse_if(
                given.count != area.channels as u32,
                Refusal::ChannelNumbersCount,
            )?;
            let n = given.count.min(6) as usize;
            let list = given.numbers.map(|number| number as u32);
            number_faults(&list[..n])
        }
        _ => Ok(()),
    }
}

// Whether each chunk of PROP is named once.
fn has_each_once(order: [PropertyChunk; 5]) -> bool
    ensures { result ≡ each_once (map property_rank order) 5 }
{
    let names = PropertyChunk::table_order();
    each_once(&order, &names)
}

// 29
#[tactic(auto, using(refusal::proofs::VerdictLaws::in_turn), unfolding(crate::specs::Property::start_fault))]
fn start_fault(area: Area, start: Option<u32>) -> Verdict
    ensures { result ≡ start_fault area start }
{
    match start {
        Some(frame) => {
            let end = frame as u64 + area.positions() as u64;
            refuse_if(LAST_FRAME_OF_DAY < end, Refusal::Start)
        }
        None => Ok(()),
    }
}

// 24 to 29
#[tactic(auto, using(refusal::proofs::VerdictLaws::in_turn), unfolding(crate::specs::Property::property_faults))]
pub fn property_faults(area: Area, o: Options, s: Settings, order: [PropertyChunk; 5]) -> Verdict
    ensures { result ≡ property_faults area o s order }
{
    refuse_if(replacement_wrong(o.text_replacement), Refusal::Replacement)?;
    numbers_fault(area, o.channel_numbers)?;
    refuse_if(!has_each_once(order), Refusal::PropertyOrder)?;
    start_fault(area, s.start)
}
