// The answers of a query and of a read.
ghost use Rattle.std.specs.Prelude.{◌≡◌};
ghost use Rattle.read_answer.specs.Answer.{query_values, read_value};

use refusal::verdict::Refusal;
use sound_reads::place::Positions;

// The positions that a read needs, or the refusal. Its number is `refusal::verdict::number_of`.
pub type QueryAnswer = Result<Positions, Refusal>;

// How many bytes were filled, from the buffer's front on, or the refusal.
pub type ReadAnswer = Result<u64, Refusal>;

// The first position and one past the last, or the detail of a refusal and a zero.
pub fn query_values(answer: QueryAnswer) -> [u64; 2]
    ensures { result ≡ query_values answer }
{
    match answer {
        Ok(positions) => [positions.first as u64, positions.end as u64],
        Err(refusal) => [refusal.detail(), 0],
    }
}

// How many bytes were filled, or the detail of a refusal.
pub fn read_value(answer: ReadAnswer) -> u64
    ensures { result ≡ read_value answer }
{
    match answer {
        Ok(count) => count,
        Err(refusal) => refusal.detail(),
    }
}
