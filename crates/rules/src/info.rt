// What DIIN tells (30 to 33), checked if there is one.
ghost use Rattle.std.specs.Prelude.{◌≡◌, map};
ghost use Rattle.refusal.specs.Orders.{info_rank, each_once};
ghost use Rattle.rules.specs.Info.{id_wrong, info_faults};

use build_options::area::Area;
use chunk_names::InfoChunk;
use faults::marks::marker_faults;
use faults::text_bytes::part_has_no_text;
use master_info::diin::Info;
use refusal::orders::each_once;
use refusal::verdict::{Refusal, Verdict, refuse_if};
use texts::extent::Extent;
use texts::text::TextRule;

fn id_wrong(raw: &[u8], id: Option<Extent>) -> bool
    ensures { result ≡ id_wrong raw.now id }
{
    match id {
        Some(e) => part_has_no_text(TextRule::Remove, raw, e),
        None => false,
    }
}

// Whether each chunk of DIIN is named once.
fn has_each_once(order: [InfoChunk; 4]) -> bool
    ensures { result ≡ each_once (map info_rank order) 4 }
{
    let names = InfoChunk::table_order();
    each_once(&order, &names)
}

// 30 to 33
#[tactic(auto, using(refusal::proofs::VerdictLaws::in_turn), unfolding(crate::specs::Info::info_faults))]
pub fn info_faults(
    area: Area,
    info: Info,
    order: [InfoChunk; 4],
    raw: &[u8],
    markers: &[u32],
) -> Verdict
    ensures { result ≡ info_faults area info order raw.now markers.now }
{
    if !info.on {
        return Ok(());
    }
    refuse_if(!has_each_once(order), Refusal::InfoOrder)?;
    refuse_if(id_wrong(raw, info.emid), Refusal::EmidByte)?;
    if info.custom_markers {
        marker_faults(markers, raw, info.text.rule, area.first, area.end)
    } else {
        Ok(())
    }
}
