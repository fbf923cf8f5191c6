// What is refused of the words themselves, before anything is made of them.
ghost use Rattle.std.specs.Prelude.{◌≡◌};
ghost use Rattle.words.specs.Border.{exceeds, beyond, field_faults, name_faults, words_fault};

use refusal::verdict::{Refusal, Verdict, refuse_if};
use single_words::word::word;

// How many words a build has.
const WORDS: usize = 67;

// Whether one of so many words from word `first` on exceeds `most`.
fn exceeds(words: &[u32], first: u8, count: u8, most: u32) -> bool
    ensures { result ≡ exceeds words.now first count most }
{
    (0..count as usize).any(|k| most < word(words, first as usize + k))
}

// Such a word is refused.
fn beyond(words: &[u32], first: u8, count: u8, most: u32, refusal: Refusal) -> Verdict
    ensures { result ≡ beyond words.now first count most refusal }
{
    refuse_if(exceeds(words, first, count, most), refusal)
}

// The bounds of this and the next are numbers, not had of the types: what a number means is told of each number (crate meanings), and what names nothing is refused here alone.
// There are 67 words (2), and a field holds its word: channels (7), layout (8), source track (13), replacement (24), channel numbers (26).
#[tactic(auto, using(refusal::proofs::VerdictLaws::in_turn), unfolding(crate::specs::Border::field_faults))]
fn field_faults(words: &[u32]) -> Verdict
    ensures { result ≡ field_faults words.now }
{
    refuse_if(words.len() != WORDS, Refusal::OutsidePool)?;
    beyond(words, 2, 1, 255, Refusal::Channels)?;
    beyond(words, 3, 1, 3, Refusal::ChannelsOfLayout)?;
    beyond(words, 21, 1, 65_535, Refusal::NoSourceTrack)?;
    beyond(words, 47, 1, 255, Refusal::Replacement)?;
    beyond(words, 8, 6, 65_535, Refusal::ChannelNumberTooLarge)
}

// A number names something: in the orders of PROP (28), DIIN (30) and the local chunks (37), and for artist and title (30), their switch and their source.
#[tactic(auto, using(refusal::proofs::VerdictLaws::in_turn), unfolding(crate::specs::Border::name_faults))]
fn name_faults(words: &[u32]) -> Verdict
    ensures { result ≡ name_faults words.now }
{
    beyond(words, 52, 5, 4, Refusal::PropertyOrder)?;
    beyond(words, 57, 4, 3, Refusal::InfoOrder)?;
    beyond(words, 32, 2, 2, Refusal::InfoOrder)?;
    beyond(words, 61, 5, 4, Refusal::LocalOrderRepeats)
}

// The first fault of the words.
#[tactic(auto, using(refusal::proofs::VerdictLaws::in_turn), unfolding(crate::specs::Border::words_fault))]
pub fn words_fault(words: &[u32]) -> Verdict
    ensures { result ≡ words_fault words.now }
{
    field_faults(words)?;
    name_faults(words)
}
