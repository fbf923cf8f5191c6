// The answer of a build.
ghost use Rattle.std.specs.Prelude.{◌≡◌};
ghost use Rattle.build_answer.specs.Answer.{build_values};

use refusal::verdict::Refusal;

// The lengths of what was built.
#[derive(Clone, Copy, PartialEq, Eq)]
pub struct Built {
    pub header: u64,
    pub sound: u64,
    pub trailer: u64,
}

// What a build answers.
pub type Answer = Result<Built, Refusal>;

// The lengths of header, sound and trailer, or the detail of a refusal and zeros. A function for each answer (read_answer, calendar have the others): how many
// values there are differs, and a trait over that is no plainer.
pub fn build_values(answer: Answer) -> [u64; 3]
    ensures { result ≡ build_values answer }
{
    match answer {
        Ok(built) => [built.header, built.sound, built.trailer],
        Err(refusal) => [refusal.detail(), 0, 0],
    }
}
