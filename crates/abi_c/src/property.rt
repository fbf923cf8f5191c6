// property.rt of abi, for C.
ghost use Rattle.std.specs.Prelude.{cond, Some, None};
ghost use Rattle.chunk.specs.Append.{Appended};
ghost use Rattle.tree.specs.Tree.{bytes};
ghost use Rattle.prop.specs.Property.{property};
ghost use Rattle.meanings.specs.Property.{sound_of, layout_of, start_of, property_order_of};

#[unsafe(no_mangle)]
pub extern "C" fn jangqeruz_property(
    out: &mut [u8],
    order: &[u8; 5],
    dst: bool,
    layout_number: u8,
    channels: u8,
    numbers_given: bool,
    numbers_count: u32,
    numbers: &[u16; 6],
    start_given: bool,
    start_frame: u32,
    loudspeaker_configuration: bool,
    unspecified_loudspeaker_configuration: bool,
    d1: bool,
) -> usize
    ensures { Appended out.old 0
        (bytes (property (property_order_of order.now) (record {
          sound = sound_of dst;
          layout = layout_of layout_number;
          channels = channels;
          numbers = cond numbers_given (Some (record { count = numbers_count; numbers = numbers.now })) None;
          start = start_of start_given start_frame;
          loudspeaker_configuration = loudspeaker_configuration;
          unspecified_loudspeaker_configuration = unspecified_loudspeaker_configuration;
          d1 = d1;
        })))
        out.new result }
{
    abi::property::jangqeruz_property(
        out,
        order,
        dst,
        layout_number,
        channels,
        numbers_given,
        numbers_count,
        numbers,
        start_given,
        start_frame,
        loudspeaker_configuration,
        unspecified_loudspeaker_configuration,
        d1,
    )
}
