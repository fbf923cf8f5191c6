// The words of a build before anything is told.
ghost use Rattle.chunk.specs.Append.{Appended};
ghost use Rattle.words.specs.Defaults.{default_words};

// The default words, as many as `words` has room for; the answer is how many a build has. Each option's is its default; those of the area are 0, and are still to be told.
#[unsafe(no_mangle)]
pub extern "C" fn jangqeruz_defaults(words: &mut [u32]) -> usize
    ensures { Appended words.old 0 default_words words.new result }
{
    words::defaults::fill_defaults(words)
}
