// defaults.rt of abi, for C.
ghost use Rattle.chunk.specs.Append.{Appended};
ghost use Rattle.words.specs.Defaults.{default_words};

#[unsafe(no_mangle)]
pub extern "C" fn jangqeruz_defaults(words: &mut [u32]) -> usize
    ensures { Appended words.old 0 default_words words.new result }
{
    abi::defaults::jangqeruz_defaults(words)
}
