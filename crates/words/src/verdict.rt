// The verdict on inputs that are told as words.
ghost use Rattle.std.specs.Prelude.{◌≡◌};
ghost use Rattle.checks.specs.InputVerdict.{verdict};
ghost use Rattle.refusal.specs.Verdict.{or_else};
ghost use Rattle.words.specs.Border.{words_fault};
ghost use Rattle.words.specs.Inputs.{inputs_told};

use crate::border::words_fault;
use crate::inputs::inputs_of;
use build_options::inputs::Lent;
use refusal::verdict::Verdict;

// What is wrong with the words themselves is refused first.
pub fn verdict(words: &[u32], lent: &Lent<'_>) -> Verdict
    ensures { result ≡ or_else (words_fault words.now) (verdict (inputs_told words.now lent.now)) }
{
    words_fault(words)?;
    checks::verdict::verdict(&inputs_of(words, lent))
}
