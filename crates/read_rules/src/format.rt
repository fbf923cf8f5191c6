// The format of a file's sound, as a query or a read is told it, and refusal 42.
ghost use Rattle.std.specs.Prelude.{◌≡◌};
ghost use Rattle.read_rules.specs.Format.{position_count};
ghost use Rattle.read_rules.specs.Fault.{bad_length, format_fault};

use prop_fields::compression::Sound;
use refusal::verdict::{Refusal, Verdict, refuse_if};

// What is told besides the lengths of DST frames. The number of positions is that of DSD; DST has as many as lengths.
#[derive(Clone, Copy)]
pub struct SoundFormat {
    pub sound: Sound,
    pub crc: bool, // DST only
    pub channels: u8,
    pub positions: u32, // DSD only
}

const MOST_POSITIONS: u64 = 1_151_999;

const LONGEST_SIDE: u64 = 0x100_0000_0000;

impl SoundFormat {
    // How many positions there are, with these lengths of DST frames.
    fn position_count(self, lengths: &[u32]) -> u64
        ensures { result ≡ position_count self lengths.now }
    {
        match self.sound {
            Sound::Dsd => self.positions as u64,
            Sound::Dst => lengths.len() as u64,
        }
    }

    // Whether a length of a DST frame is not 1 to 65,536.
    fn lengths_wrong(self, lengths: &[u32]) -> bool
        ensures { result ≡ bad_length self lengths.now }
    {
        match self.sound {
            Sound::Dsd => false,
            Sound::Dst => rows::lengths::lengths_wrong(lengths),
        }
    }

    // 42, where header and trailer have so many bytes.
    #[tactic(auto, unfolding(crate::specs::Fault::format_fault))]
    pub fn fault(self, lengths: &[u32], header: u64, trailer: u64) -> Verdict
        ensures { result ≡ format_fault self lengths.now header trailer }
    {
        refuse_if(
            self.channels < 1
                || 6 < self.channels
                || self.lengths_wrong(lengths)
                || MOST_POSITIONS < self.position_count(lengths)
                || LONGEST_SIDE < header
                || LONGEST_SIDE < trailer,
            Refusal::Format,
        )
    }
}
