// The numbers of the sound.
ghost use Rattle.std.specs.Prelude.{◌≡◌};
ghost use Rattle.meanings.specs.Sound.{offset_of};

use dst_index::index::DstIndexOffset;

// An offset of the index leads to the frame's data, or to its chunk's header.
pub fn offset(frame_data: bool) -> DstIndexOffset
    ensures { result ≡ offset_of frame_data }
{
    if frame_data {
        DstIndexOffset::FrameData
    } else {
        DstIndexOffset::ChunkHeader
    }
}
