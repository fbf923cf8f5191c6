// The time of a frame, as ABSS and MARK have it.
ghost use Rattle.std.specs.Prelude.{◌≡◌};
ghost use Rattle.chunk.specs.Append.{Appended};
ghost use Rattle.frame_time.specs.Time.{time_of, time_bytes};

use chunk::Cursor;

const FRAMES_PER_SECOND: u64 = 75;

const FRAMES_PER_MINUTE: u64 = 4_500;

const FRAMES_PER_HOUR: u64 = 270_000;

const SAMPLES_PER_FRAME: u64 = 37_632;

#[derive(Clone, Copy)]
pub struct FrameTime {
    pub hours: u16,
    pub minutes: u8,
    pub seconds: u8,
    pub samples: u32,
}

// The time of frame g. Of hours that pass a u16, the low 16 bits.
#[tactic(auto, unfolding(crate::specs::Time::time_of))]
pub fn time(g: u64) -> FrameTime
    ensures { result ≡ time_of g }
{
    FrameTime {
        hours: (g / FRAMES_PER_HOUR % 0x1_0000) as u16,
        minutes: (g / FRAMES_PER_MINUTE % 60) as u8,
        seconds: (g / FRAMES_PER_SECOND % 60) as u8,
        samples: (g % FRAMES_PER_SECOND * SAMPLES_PER_FRAME) as u32,
    }
}

// The eight bytes of a time.
pub fn time_bytes(c: Cursor, out: &mut [u8], t: FrameTime) -> Cursor
    ensures { Appended out.old c.at (time_bytes t) out.new result.at }
{
    c.be16(out, t.hours)
        .byte(out, t.minutes)
        .byte(out, t.seconds)
        .be32(out, t.samples)
}
