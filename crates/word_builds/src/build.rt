// A build from words, as Inputs.antt of the crate words lists them, with the rows and pools as they are.
ghost use Rattle.words.specs.Inputs.{inputs_told};
ghost use Rattle.words.specs.Border.{words_fault};
ghost use Rattle.word_builds.specs.Build.{BuildsUnless};

use assemble::build::build_rows;
use build_answer::answer::Answer;
use build_options::inputs::Lent;
use words::border::words_fault;
use words::inputs::inputs_of;

// What is wrong with the words themselves is refused first, and nothing is done.
pub fn build(words: &[u32], lent: &Lent<'_>, header: &mut [u8], trailer: &mut [u8]) -> Answer
    ensures { BuildsUnless (words_fault words.now) (inputs_told words.now lent.now) header.old header.new trailer.old trailer.new result }
{
    words_fault(words)?;
    build_rows(&inputs_of(words, lent), header, trailer)
}
