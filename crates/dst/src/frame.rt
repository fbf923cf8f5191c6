// A frame's plain content.
ghost use Rattle.std.specs.Prelude.{◌≡◌};
ghost use Rattle.dst.specs.Frame.{frame_bytes, plain_bytes};

const FRAME_BYTES_PER_CHANNEL: usize = 4704;

// Bytes of a frame's plain content.
pub fn frame_bytes(channels: u8) -> usize
    ensures { result ≡ frame_bytes channels }
{
    FRAME_BYTES_PER_CHANNEL * channels as usize
}

// Bytes of plain content that a read of DST sound is lent for each position: for the CRC only.
pub fn plain_bytes(crc: bool, channels: u8) -> usize
    ensures { result ≡ plain_bytes crc channels }
{
    if crc { frame_bytes(channels) } else { 0 }
}
