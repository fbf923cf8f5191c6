// 26 and 27: the channel numbers of an unspecified layout.
ghost use Rattle.std.specs.Prelude.{◌≡◌, ◌<◌, length};
ghost use Rattle.channel_rules.specs.ChannelNumbers.{number_fault, number_faults};

use refusal::verdict::{Refusal, Verdict, refuse_if};

const LARGEST: u32 = 999;

// 26 and 27 of one number: it is too large, or it was there before.
fn number_fault(numbers: &[u32], k: usize) -> Verdict
    requires { k < length numbers.now }
    ensures { result ≡ number_fault numbers.now k }
{
    let number = numbers[k];
    refuse_if(LARGEST < number, Refusal::ChannelNumberTooLarge)?;
    refuse_if(numbers[..k].contains(&number), Refusal::ChannelNumberTwice)
}

// The first number at fault.
pub fn number_faults(numbers: &[u32]) -> Verdict
    ensures { result ≡ number_faults numbers.now }
{
    for k in 0..numbers.len() {
        number_fault(numbers, k)?;
    }
    Ok(())
}
