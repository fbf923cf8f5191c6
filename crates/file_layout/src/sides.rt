// FRM8's data up to the first sound byte, and what follows the sound.
ghost use Rattle.chunk.specs.Append.{Appended};
ghost use Rattle.build_options.specs.Inputs.{inputs_of};
ghost use Rattle.file_tree.specs.Parts.{parts};
ghost use Rattle.file_tree.specs.Sides.{given_names, back};
ghost use Rattle.file_tree.specs.Sized.{front_sized};

use crate::locals::local_chunks;
use crate::sound::sound_head_sized;
use build_options::inputs::Inputs;
use caller_chunks::callers::caller_chunks;
use chunk::Cursor;

// The version of the format.
const VERSION: [u8; 4] = [1, 5, 0, 0];

// The form, FVER, the local chunks before the sound, and the sound chunk's head, where the sound has `size` bytes. The index's offsets are counted from
// `base`, the place of the first sound byte.
pub fn front_sized(c: Cursor, out: &mut [u8], inputs: &Inputs<'_>, size: u64, base: u64) -> Cursor
    ensures { let x = inputs_of inputs.now in
        Appended out.old c.at (front_sized (parts x) size base (given_names x.local_order x.local_count)) out.new result.at }
{
    let c = c.name(out, *b"DSD ");
    let c = c.chunk(out, *b"FVER", &VERSION);
    let c = local_chunks(c, out, inputs, base, false);
    sound_head_sized(c, out, inputs.area.sound, size, inputs.lent.lengths.len())
}

// The local chunks behind the sound, and the caller's chunks.
pub fn back(c: Cursor, out: &mut [u8], inputs: &Inputs<'_>, base: u64) -> Cursor
    ensures { let x = inputs_of inputs.now in
        Appended out.old c.at (back (parts x) base (given_names x.local_order x.local_count) x.callers) out.new result.at }
{
    let c = local_chunks(c, out, inputs, base, true);
    caller_chunks(c, out, inputs.lent.pools.bytes, inputs.lent.callers)
}
