// Limits, pools and Unicode scalars (1 to 3), of everything that is lent.
ghost use Rattle.std.specs.Prelude.{◌≡◌, length};
ghost use Rattle.build_options.specs.Inputs.{inputs_of};
ghost use Rattle.rules.specs.Limits.{any_too_large, any_outside, any_no_scalar, limit_faults};

use build_options::inputs::Inputs;
use build_options::options::{id_row, tag_rows};
use refusal::verdict::{Refusal, Verdict, refuse_if};
use row_extents::extents::{RowFaults, extents};
use rows::row::Row;
use rows::scalars::no_scalars;

const LONGEST_TEXT: u32 = 1_048_576;

const LONGEST_CALLER_CHUNK: u32 = 16_777_216;

const MOST_TRACKS: u64 = 65_535;

const MOST_CALLER_CHUNKS: u64 = 255;

const MOST_MARKERS: u64 = 65_535;

// Of texts and comments there may be any number.
const ANY: u64 = u64::MAX;

// 1 and 2 of all rows. Given markers count only if they are wanted.
#[tactic(auto, unfolding(crate::specs::Limits::any_too_large, crate::specs::Limits::any_outside))]
fn row_faults(inputs: &Inputs<'_>) -> RowFaults
    ensures too_large_value { let x = inputs_of inputs.now in result.too_large ≡ any_too_large x.options x.tracks x.markers x.comments x.callers }
    ensures outside_value { let x = inputs_of inputs.now in
        result.outside ≡ any_outside x.options (length x.pool) (length x.raw) x.tracks x.markers x.comments x.callers }
{
    let o = inputs.options;
    let pool = inputs.lent.pools.text.len();
    let raw = inputs.lent.pools.bytes.len();
    let tags = tag_rows(o.album, o.track);
    let emid = id_row(o.edited_master_id);
    let a = extents(Row::Text, &tags, ANY, LONGEST_TEXT, pool);
    let b = extents(Row::Text, &emid, ANY, LONGEST_TEXT, raw);
    let c = extents(
        Row::Track,
        inputs.lent.tracks,
        MOST_TRACKS,
        LONGEST_TEXT,
        pool,
    );
    let d = extents(
        Row::Marker,
        inputs.lent.markers,
        MOST_MARKERS,
        LONGEST_TEXT,
        raw,
    );
    let e = extents(Row::Comment, inputs.lent.comments, ANY, LONGEST_TEXT, pool);
    let f = extents(
        Row::Caller,
        inputs.lent.callers,
        MOST_CALLER_CHUNKS,
        LONGEST_CALLER_CHUNK,
        raw,
    );
    let custom = o.custom_markers;
    RowFaults {
        too_large: a.too_large
            | (b.too_large
                | (c.too_large | ((custom & d.too_large) | (e.too_large | f.too_large)))),
        outside: a.outside
            | (b.outside | (c.outside | ((custom & d.outside) | (e.outside | f.outside)))),
    }
}

// Whether a text has a value that is no scalar.
#[tactic(auto, unfolding(crate::specs::Limits::any_no_scalar))]
fn any_no_scalar(inputs: &Inputs<'_>) -> bool
    ensures { let x = inputs_of inputs.now in result ≡ any_no_scalar x.options x.pool x.tracks x.comments }
{
    let pool = inputs.lent.pools.text;
    let tags = tag_rows(inputs.options.album, inputs.options.track);
    no_scalars(Row::Text, &tags, pool)
        || no_scalars(Row::Track, inputs.lent.tracks, pool)
        || no_scalars(Row::Comment, inputs.lent.comments, pool)
}

// 1 to 3
#[tactic(auto, using(refusal::proofs::VerdictLaws::in_turn), unfolding(crate::specs::Limits::limit_faults))]
pub fn limit_faults(inputs: &Inputs<'_>) -> Verdict
    ensures { let x = inputs_of inputs.now in result ≡ limit_faults x.options x.pool x.raw x.tracks x.markers x.comments x.callers }
{
    let rows = row_faults(inputs);
    refuse_if(rows.too_large, Refusal::TooLarge)?;
    refuse_if(rows.outside, Refusal::OutsidePool)?;
    refuse_if(any_no_scalar(inputs), Refusal::NoScalar)
}
