// The local chunks, each written if it is to be written, on either side of the sound.
ghost use Rattle.std.specs.Prelude.{◌≡◌, cond, ◌&&◌, []};
ghost use Rattle.chunk.specs.Append.{Appended, moved};
ghost use Rattle.tree.specs.Tree.{bytes};
ghost use Rattle.dst_index.specs.Index.{shift_of, dsti};
ghost use Rattle.prop.specs.Property.{property};
ghost use Rattle.master_info.specs.Diin.{diin};
ghost use Rattle.build_options.specs.Inputs.{inputs_of};
ghost use Rattle.build_options.specs.Options.{effective, info_of};
ghost use Rattle.build_options.specs.Area.{is_dst};
ghost use Rattle.file_tree.specs.Parts.{parts, properties_of};
ghost use Rattle.file_tree.specs.Sides.{is_sound, given_names, local_bytes, locals_bytes};
ghost use Rattle.file_tree.specs.Steps.{on_side, side};

use build_options::area::Area;
use build_options::inputs::Inputs;
use build_options::options::{Options, Settings, effective, info_of, text_options};
use chunk::Cursor;
use chunk_names::LocalChunk;
use comt::comt::comt;
use dst_index::index::dsti;
use master_info::diin::{Given, diin};
use prop::property::{Properties, property};
use prop_fields::compression::Sound;

// What PROP tells.
fn properties_of(area: Area, o: Options, s: Settings) -> Properties
    ensures { result ≡ properties_of area o s }
{
    Properties {
        sound: area.sound,
        layout: area.layout,
        channels: area.channels,
        numbers: o.channel_numbers,
        start: s.start,
        loudspeaker_configuration: o.loudspeaker_configuration,
        unspecified_loudspeaker_configuration: o.unspecified_loudspeaker_configuration,
        d1: o.d1,
    }
}

fn property_chunk(c: Cursor, out: &mut [u8], inputs: &Inputs<'_>) -> Cursor
    ensures { let x = inputs_of inputs.now in
        Appended out.old c.at (bytes (property x.property_order (properties_of x.area x.options (effective x.options)))) out.new result.at }
{
    let settings = effective(inputs.options);
    let properties = properties_of(inputs.area, inputs.options, settings);
    property(c, out, inputs.property_order, properties)
}

// The index: none for DSD, or if it is switched off.
#[tactic(auto, using(chunk::proofs::AppendLaws::none))]
fn index_chunk(c: Cursor, out: &mut [u8], inputs: &Inputs<'_>, base: u64) -> Cursor
    ensures { let x = inputs_of inputs.now in
        Appended out.old c.at
        (cond (is_dst x.area.sound && x.options.dst_index) (dsti x.options.dst_crc (moved base (shift_of x.options.dst_index_offset)) x.lengths) [])
        out.new result.at }
{
    let options = inputs.options;
    match inputs.area.sound {
        Sound::Dst if options.dst_index => dsti(
            c,
            out,
            options.dst_crc,
            options.dst_index_offset,
            base,
            inputs.lent.lengths,
        ),
        _ => c,
    }
}

fn info_chunk(c: Cursor, out: &mut [u8], inputs: &Inputs<'_>) -> Cursor
    ensures { let x = inputs_of inputs.now in
        Appended out.old c.at
        (bytes (diin x.pool x.raw x.tracks x.markers (info_of x.area x.options (effective x.options)) x.info_order))
        out.new result.at }
{
    let info = info_of(inputs.area, inputs.options, effective(inputs.options));
    let lent = inputs.lent;
    let given = Given {
        pools: lent.pools,
        tracks: lent.tracks,
        markers: lent.markers,
    };
    diin(c, out, &given, inputs.info_order, info)
}

// A local chunk other than the sound.
#[tactic(auto, using(chunk::proofs::AppendLaws::none), unfolding(file_tree::specs::Sides::local_bytes))]
fn local_chunk(
    c: Cursor,
    out: &mut [u8],
    inputs: &Inputs<'_>,
    base: u64,
    name: LocalChunk,
) -> Cursor
    ensures { Appended out.old c.at (local_bytes (parts (inputs_of inputs.now)) base name) out.new result.at }
{
    match name {
        LocalChunk::Property => property_chunk(c, out, inputs),
        LocalChunk::SoundData => c,
        LocalChunk::DstIndex => index_chunk(c, out, inputs, base),
        LocalChunk::EditedMasterInfo => info_chunk(c, out, inputs),
        LocalChunk::Comments => {
            let text = text_options(inputs.options);
            comt(c, out, inputs.lent.pools.text, inputs.lent.comments, text)
        }
    }
}

fn is_sound(name: LocalChunk) -> bool
    ensures { result ≡ is_sound name }
{
    matches!(name, LocalChunk::SoundData)
}

// Whether a name is on the side of the sound that is asked for: the sound was passed before it, or comes after it.
fn on_side(behind: bool, passed: bool, sound: bool) -> bool
    ensures { result ≡ on_side behind passed sound }
{
    if behind { passed } else { !(passed | sound) }
}

// The names that are given, at most all of them.
fn given_names(order: &[LocalChunk; 5], count: u32) -> &[LocalChunk]
    ensures { result.now ≡ given_names order.now count }
{
    &order[..count.min(5) as usize]
}

// The local chunks before the sound or, if `behind`, those behind it.
pub(crate) fn local_chunks(
    c: Cursor,
    out: &mut [u8],
    inputs: &Inputs<'_>,
    base: u64,
    behind: bool,
) -> Cursor
    ensures { let x = inputs_of inputs.now in
        Appended out.old c.at (locals_bytes (parts x) base (side behind (given_names x.local_order x.local_count))) out.new result.at }
{
    let mut c = c;
    let mut passed = false; // whether the sound was met
    for &name in given_names(&inputs.local_order, inputs.local_count) {
        let sound = is_sound(name);
        if on_side(behind, passed, sound) {
            c = local_chunk(c, out, inputs, base, name);
        }
        passed |= sound;
    }
    c
}
