// The words of a build before anything is told.
ghost use Rattle.std.specs.Prelude.{◌≡◌};
ghost use Rattle.chunk.specs.Append.{Appended};
ghost use Rattle.words.specs.Defaults.{default_words};

// As specs/Inputs.antt lists them. On are LSCO (15), DSTI (19), EMID (24), the replacement (46, a question mark) and an empty DIIN (49).
const DEFAULTS: [u32; 67] = [
    0, 0, 0, 0, 0, 0, 0, 0, 0, 0, 0, 0, 0, 0, 0, 1, 0, 0, 0, 1, 0, 0, 0, 0, 1, 0, 0, 0, 0, 0, 0, 0,
    0, 0, 0, 0, 0, 0, 0, 0, 0, 0, 0, 0, 0, 0, 1, 0x3F, 0, 1, 0, 0, 0, 1, 2, 3, 4, 0, 1, 2, 3, 0, 4,
    3, 1, 2, 5,
];

#[tactic(auto, unfolding(crate::specs::Defaults::default_words))]
pub fn default_words() -> [u32; 67]
    ensures { result ≡ default_words }
{
    DEFAULTS
}

// The default words into a list, as many as fit; the answer is how many a build has.
pub fn fill_defaults(words: &mut [u32]) -> usize
    ensures { Appended words.old 0 default_words words.new result }
{
    let defaults = default_words();
    let n = words.len().min(67);
    words[..n].copy_from_slice(&defaults[..n]);
    67
}
