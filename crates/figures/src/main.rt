// Works out the figures of document 01 and prints them; the file stdout holds what they must be.
#![tactic(auto)]

mod chunks; // chunks.rt: numbers, chunks, frame times, names
mod text; // text.rt: converted texts, DIAR and DITI, COMT
mod text_cases; // text_cases.rt: their pools, comments and options
mod sound; // sound.rt: CRC, units, head, index and reads of DST sound; positions
mod property; // property.rt: PROP
mod diin; // diin.rt: DIIN and its markers
mod document; // document.rt: document 01's figures that have no star
mod print; // print.rt: lines of bytes

use std::io;

fn main(rt: HostRuntime) -> io::Result<()> {
    chunks::times(&rt)?;
    chunks::sizes(&rt)?;
    chunks::chunks(&rt)?;
    chunks::short_buffers(&rt)?;
    chunks::names(&rt)?;
    text::cases(&rt)?;
    sound::cases(&rt)?;
    property::cases(&rt)?;
    diin::cases(&rt)?;
    document::figures(&rt)
}
