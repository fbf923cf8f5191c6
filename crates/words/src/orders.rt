// The orders of PROP, DIIN and the local chunks: words 52 to 65.
ghost use Rattle.std.specs.Prelude.{◌≡◌};
ghost use Rattle.meanings.specs.Property.{property_order_of};
ghost use Rattle.meanings.specs.Diin.{info_order_of};
ghost use Rattle.meanings.specs.Local.{local_order_of};
ghost use Rattle.single_words.specs.Word.{low_bytes};

use chunk_names::{InfoChunk, LocalChunk, PropertyChunk};
use single_words::word::byte;

pub fn property_order(words: &[u32]) -> [PropertyChunk; 5]
    ensures { result ≡ property_order_of (low_bytes words.now 52 5) }
{
    meanings::property::property_order([52, 53, 54, 55, 56].map(|i| byte(words, i)))
}

pub fn info_order(words: &[u32]) -> [InfoChunk; 4]
    ensures { result ≡ info_order_of (low_bytes words.now 57 4) }
{
    meanings::diin::info_order([57, 58, 59, 60].map(|i| byte(words, i)))
}

pub fn local_order(words: &[u32]) -> [LocalChunk; 5]
    ensures { result ≡ local_order_of (low_bytes words.now 61 5) }
{
    meanings::local::local_order([61, 62, 63, 64, 65].map(|i| byte(words, i)))
}
