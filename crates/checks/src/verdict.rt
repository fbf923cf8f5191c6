// The verdict on the inputs of a build: the first refusal of document 01's list.
ghost use Rattle.std.specs.Prelude.{◌≡◌};
ghost use Rattle.build_options.specs.Inputs.{inputs_of};
ghost use Rattle.checks.specs.InputVerdict.{given_faults, chunk_faults, verdict};

use area_rules::area::area_faults;
use area_rules::master::track_faults;
use build_options::inputs::Inputs;
use build_options::options::{Settings, effective, info_of};
use comment_faults::comments::comment_faults;
use faults::caller::caller_faults;
use local_rules::local::local_faults;
use refusal::verdict::Verdict;
use rules::info::info_faults;
use rules::limits::limit_faults;
use rules::property::property_faults;

// 1 to 5
#[tactic(auto, using(refusal::proofs::VerdictLaws::in_turn), unfolding(crate::specs::InputVerdict::given_faults))]
fn given_faults(inputs: &Inputs<'_>) -> Verdict
    ensures { let x = inputs_of inputs.now in result ≡ given_faults x.options x.pool x.raw x.tracks x.markers x.comments x.callers }
{
    limit_faults(inputs)?;
    caller_faults(inputs.lent.callers)
}

// 30 to 39
#[tactic(auto, using(refusal::proofs::VerdictLaws::in_turn), unfolding(crate::specs::InputVerdict::chunk_faults))]
fn chunk_faults(inputs: &Inputs<'_>, s: Settings) -> Verdict
    ensures { let x = inputs_of inputs.now in
        result ≡ chunk_faults x.area x.options s x.info_order x.local_order x.local_count x.pool x.raw x.tracks x.markers x.comments }
{
    let info = info_of(inputs.area, inputs.options, s);
    let pools = inputs.lent.pools;
    info_faults(
        inputs.area,
        info,
        inputs.info_order,
        pools.bytes,
        inputs.lent.markers,
    )?;
    comment_faults(
        inputs.lent.comments,
        pools.text,
        info.text,
        inputs.area.channels,
    )?;
    local_faults(inputs, info)
}

// The first refusal, or that the build is accepted.
#[tactic(auto, using(refusal::proofs::VerdictLaws::in_turn), unfolding(crate::specs::InputVerdict::verdict))]
pub fn verdict(inputs: &Inputs<'_>) -> Verdict
    ensures { result ≡ verdict (inputs_of inputs.now) }
{
    let s = effective(inputs.options);
    given_faults(inputs)?;
    area_faults(inputs.area, inputs.lent.lengths)?;
    track_faults(inputs.area, inputs.options, s, inputs.lent.tracks)?;
    property_faults(inputs.area, inputs.options, s, inputs.property_order)?;
    chunk_faults(inputs, s)
}
