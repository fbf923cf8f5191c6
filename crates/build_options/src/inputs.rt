// All that a build is told and lent.
use crate::area::Area;
use crate::options::Options;
use chunk_names::{InfoChunk, LocalChunk, PropertyChunk};
use texts::pools::Pools;

// What is lent: the pools, rows of words, and the lengths of the DST frames. Rows are flat, as the exported functions are lent them; one that is cut short is
// refusal 2.
#[derive(Clone, Copy)]
pub struct Lent<'a> {
    pub pools: Pools<'a>,
    pub tracks: &'a [u32],
    pub markers: &'a [u32],
    pub comments: &'a [u32],
    pub callers: &'a [u32],
    pub lengths: &'a [u32],
}

// Contracts speak of it by `inputs_of` (specs/Inputs), since its fields are public.
#[derive(Clone, Copy)]
pub struct Inputs<'a> {
    pub area: Area,
    pub options: Options,
    pub property_order: [PropertyChunk; 5],
    pub info_order: [InfoChunk; 4],
    pub local_order: [LocalChunk; 5],
    pub local_count: u32, // how many of the five are told; above 5 is a repeat
    pub lent: Lent<'a>,
}
