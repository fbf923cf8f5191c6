// The numbers of two options: a switch of three positions, and a byte that may be missing.
ghost use Rattle.std.specs.Prelude.{◌≡◌};
ghost use Rattle.meanings.specs.Options.{switch_of, replacement_of};

// 0 is unset, 1 on, any other off.
pub fn artist_title(number: u32) -> Option<bool>
    ensures { result ≡ switch_of number }
{
    match number {
        0 => None,
        1 => Some(true),
        _ => Some(false),
    }
}

// A byte that may be missing.
pub fn replacement(given: bool, byte: u8) -> Option<u8>
    ensures { result ≡ replacement_of given byte }
{
    given.then_some(byte)
}
