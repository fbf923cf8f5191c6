// The order of the local chunks (37 to 39).
ghost use Rattle.std.specs.Prelude.{◌≡◌, ◌&&◌, ◌||◌, ◌<◌, ltb, length, map};
ghost use Rattle.std.specs.List.{list_any};
ghost use Rattle.refusal.specs.Orders.{local_rank, times};
ghost use Rattle.comt.specs.Comment.{written_comments, has_comt};
ghost use Rattle.master_info.specs.Diin.{has_diin};
ghost use Rattle.build_options.specs.Area.{is_dst};
ghost use Rattle.build_options.specs.Inputs.{inputs_of};
ghost use Rattle.local_rules.specs.Local.{repeats, lacks, sound_first, sound_before_prop, lacks_any, order_faults, local_faults};

use build_options::area::is_dst;
use build_options::inputs::Inputs;
use chunk::Cursor;
use chunk_names::LocalChunk;
use comt::comt::comt;
use master_info::diin::{Given, Info, diin};
use refusal::orders::times;
use refusal::verdict::{Refusal, Verdict, refuse_if};
use texts::text::TextOptions;

const NAMES: [LocalChunk; 5] = [
    LocalChunk::Property,
    LocalChunk::SoundData,
    LocalChunk::DstIndex,
    LocalChunk::EditedMasterInfo,
    LocalChunk::Comments,
];

fn is_twice(order: &[LocalChunk], name: LocalChunk) -> bool
    ensures { result ≡ ltb 1 (times (map local_rank order.now) (local_rank name)) }
{
    1 < times(order, &name)
}

fn any_twice(order: &[LocalChunk], names: &[LocalChunk]) -> bool
    ensures { result ≡ list_any (λ name. ltb 1 (times (map local_rank order.now) (local_rank name))) names.now }
{
    names.iter().any(|name| is_twice(order, *name))
}

// Whether more than five names are told, or one of the five is there twice.
fn repeats(order: &[LocalChunk], count: u32) -> bool
    ensures { result ≡ (ltb 5 count || repeats (map local_rank order.now)) }
{
    5 < count || any_twice(order, &NAMES)
}

fn lacks(order: &[LocalChunk], name: LocalChunk) -> bool
    ensures { result ≡ lacks (map local_rank order.now) (local_rank name) }
{
    times(order, &name) == 0
}

// Whether place k names the sound, and no place before it PROP.
fn sound_first(order: &[LocalChunk], k: usize) -> bool
    requires { k < length order.now }
    ensures { result ≡ sound_first (map local_rank order.now) k }
{
    order[k] == LocalChunk::SoundData && lacks(&order[..k], LocalChunk::Property)
}

// Whether the sound comes before PROP.
fn sound_before_prop(order: &[LocalChunk]) -> bool
    ensures { result ≡ sound_before_prop (map local_rank order.now) }
{
    (0..order.len()).any(|k| sound_first(order, k))
}

// Whether there will be a DIIN that the order does not name. It is measured only if it is not named.
fn lacks_diin(order: &[LocalChunk], inputs: &Inputs<'_>, info: Info) -> bool
    ensures { let x = inputs_of inputs.now in
        result ≡ (lacks (map local_rank order.now) 3 && has_diin x.pool x.raw x.tracks x.markers info x.info_order) }
{
    if !lacks(order, LocalChunk::EditedMasterInfo) {
        return false;
    }
    let lent = inputs.lent;
    let given = Given {
        pools: lent.pools,
        tracks: lent.tracks,
        markers: lent.markers,
    };
    let end = diin(Cursor::new(), &mut [], &given, inputs.info_order, info);
    end.at != 0
}

// The same of COMT.
fn lacks_comt(order: &[LocalChunk], inputs: &Inputs<'_>, text: TextOptions) -> bool
    ensures { let x = inputs_of inputs.now in
        result ≡ (lacks (map local_rank order.now) 4 && has_comt (written_comments x.pool x.comments text)) }
{
    if !lacks(order, LocalChunk::Comments) {
        return false;
    }
    let lent = inputs.lent;
    let end = comt(Cursor::new(), &mut [], lent.pools.text, lent.comments, text);
    end.at != 0
}

// Whether a chunk will be written that the order does not name.
#[tactic(auto, unfolding(crate::specs::Local::lacks_any))]
fn lacks_any(order: &[LocalChunk], inputs: &Inputs<'_>, info: Info) -> bool
    ensures { let x = inputs_of inputs.now in
        result ≡ lacks_any x.pool x.raw x.tracks x.markers x.comments x.info_order info (is_dst x.area.sound && x.options.dst_index) (map local_rank order.now) }
{
    let dst_index = is_dst(inputs.area.sound) && inputs.options.dst_index;
    lacks(order, LocalChunk::Property)
        || lacks(order, LocalChunk::SoundData)
        || dst_index && lacks(order, LocalChunk::DstIndex)
        || lacks_diin(order, inputs, info)
        || lacks_comt(order, inputs, info.text)
}

// 37 to 39 of the names that count, where so many are told.
#[tactic(auto, using(refusal::proofs::VerdictLaws::in_turn), unfolding(crate::specs::Local::order_faults))]
fn order_faults(order: &[LocalChunk], count: u32, inputs: &Inputs<'_>, info: Info) -> Verdict
    ensures { let x = inputs_of inputs.now in
        result ≡ order_faults x.pool x.raw x.tracks x.markers x.comments x.info_order info (is_dst x.area.sound && x.options.dst_index) (map local_rank order.now) count }
{
    refuse_if(repeats(order, count), Refusal::LocalOrderRepeats)?;
    refuse_if(lacks_any(order, inputs, info), Refusal::LocalOrderLacks)?;
    refuse_if(sound_before_prop(order), Refusal::SoundBeforeProperty)
}

// The same of an order. (It is taken by value: of an array behind a reference it is not known how long it is.)
fn faults_of(order: [LocalChunk; 5], count: u32, inputs: &Inputs<'_>, info: Info) -> Verdict
    ensures { let x = inputs_of inputs.now in
        result ≡ local_faults x.pool x.raw x.tracks x.markers x.comments x.info_order info (is_dst x.area.sound && x.options.dst_index) order count }
{
    order_faults(&order[..count.min(5) as usize], count, inputs, info)
}

// 37 to 39
pub fn local_faults(inputs: &Inputs<'_>, info: Info) -> Verdict
    ensures { let x = inputs_of inputs.now in
        result ≡ local_faults x.pool x.raw x.tracks x.markers x.comments x.info_order info (is_dst x.area.sound && x.options.dst_index) x.local_order x.local_count }
{
    faults_of(inputs.local_order, inputs.local_count, inputs, info)
}
