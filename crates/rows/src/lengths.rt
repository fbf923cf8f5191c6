// 10: the lengths of DST frames.
ghost use Rattle.std.specs.Prelude.{◌≡◌};
ghost use Rattle.rows.specs.Lengths.{lengths_wrong};

// A length is right if the number before it is at most this.
const LAST: u32 = 65_535;

// Whether one of them is not 1 to 65,536. The numbers before them, of 0 the largest, are joined bit by bit and tested once, so that the loop has no
// branch and is done on many lengths at once; and it goes over two halves at a time, which is faster than one long run. Of an odd number the middle one is in both.
pub fn lengths_wrong(lengths: &[u32]) -> bool
    ensures { result ≡ lengths_wrong lengths.now }
{
    let second = lengths.len() / 2;
    let half = lengths.len() - second;
    let mut low = 0;
    let mut high = 0;
    for i in 0..half {
        low |= lengths[i].wrapping_sub(1);
        high |= lengths[second + i].wrapping_sub(1);
    }
    LAST < (low | high)
}
