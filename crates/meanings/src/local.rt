// The numbers of the local chunks.
ghost use Rattle.std.specs.Prelude.{◌≡◌};
ghost use Rattle.meanings.specs.Local.{local_chunk_of, local_order_of};

use chunk_names::LocalChunk;

// 0 is PROP, 1 the sound, 2 is DSTI, 3 is DIIN, any other is COMT.
pub fn local_chunk(number: u8) -> LocalChunk
    ensures { result ≡ local_chunk_of number }
{
    match number {
        0 => LocalChunk::Property,
        1 => LocalChunk::SoundData,
        2 => LocalChunk::DstIndex,
        3 => LocalChunk::EditedMasterInfo,
        _ => LocalChunk::Comments,
    }
}

pub fn local_order(numbers: [u8; 5]) -> [LocalChunk; 5]
    ensures { result ≡ local_order_of numbers }
{
    numbers.map(local_chunk)
}
