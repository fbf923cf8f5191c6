// Header and trailer, written. The sound's length is worked out here, once in a build.
ghost use Rattle.build_options.specs.Inputs.{inputs_of};
ghost use Rattle.header_trailer.specs.Fill.{FilledAround};

use build_options::inputs::Inputs;
use chunk::Cursor;
use file_layout::sides::{back, front_sized};
use file_layout::sound::sound_size;

// Header and trailer around the sound, whose length it works out and answers, where FRM8's data has `rest` bytes beside the sound and the sound begins
// at `base`.
pub fn fill_around(
    rest: u64,
    base: u64,
    inputs: &Inputs<'_>,
    head: &mut [u8],
    tail: &mut [u8],
) -> u64
    ensures { FilledAround (inputs_of inputs.now) rest base head.old head.new tail.old tail.new result }
{
    let sound = sound_size(inputs.area, inputs.options.dst_crc, inputs.lent.lengths);
    let start = Cursor::new();
    let c = start.chunk_head(head, *b"FRM8", rest.saturating_add(sound));
    front_sized(c, head, inputs, sound, base);
    back(start, tail, inputs, base);
    sound
}
