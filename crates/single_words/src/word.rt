// A word of a list. One past the end is 0; one that stands for a u8 or a u16 counts by its low bits (the crate words refuses lists where either matters); a switch is
// on if its word is not 0.
ghost use Rattle.std.specs.Prelude.{◌≡◌};
ghost use Rattle.single_words.specs.Word.{word_of, low_byte, half_of, is_set, text_at};

use meanings::diin::given_text;
use texts::extent::Extent;

pub fn word(words: &[u32], i: usize) -> u32
    ensures { result ≡ word_of words.now i }
{
    words.get(i).copied().unwrap_or(0)
}

// One for each width, of one line each.
pub fn byte(words: &[u32], i: usize) -> u8
    ensures { result ≡ low_byte words.now i }
{
    (word(words, i) % 0x100) as u8
}

pub fn half(words: &[u32], i: usize) -> u16
    ensures { result ≡ half_of words.now i }
{
    (word(words, i) % 0x1_0000) as u16
}

#[tactic(auto, unfolding(crate::specs::Word::is_set))]
pub fn is_set(words: &[u32], i: usize) -> bool
    ensures { result ≡ is_set words.now i }
{
    word(words, i) != 0
}

// A text of three words from word i on.
#[tactic(auto, unfolding(crate::specs::Word::text_at))]
pub fn text_at(words: &[u32], i: u8) -> Option<Extent>
    ensures { result ≡ text_at words.now i }
{
    let at = i as usize;
    given_text([word(words, at), word(words, at + 1), word(words, at + 2)])
}
