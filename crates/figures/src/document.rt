// Document 01's figures that have no star, of whole builds.
use build_answer::answer::{Answer, build_values};
use build_options::inputs::Lent;
use refusal::verdict::number_of;
use std::io;
use texts::pools::Pools;

// The words of a build, as crates/words/specs/Inputs.antt has them: frames 0 to 150 of 150 of a stereo DSD area, and the
// original's defaults.
const PLAIN: [u32; 67] = [
    0, 150, 2, 0, 0, 150, 0, 0, 0, 0, 0, 0, 0, 0, 0, 1, 0, 0, 0, 1, 0, 0, 0, 0, 1, 0, 0, 0, 0, 0,
    0, 0, 0, 0, 0, 0, 0, 0, 0, 0, 0, 0, 0, 0, 0, 0, 1, 0x3F, 0, 1, 0, 0, 0, 1, 2, 3, 4, 0, 1, 2, 3,
    0, 4, 3, 1, 2, 5,
];

// A MARK has 34 bytes. The first stands behind FRM8's front, FVER, PROP, DIIN's name and size, and an EMID of no bytes: 16, 16,
// 100, 12 and 12 bytes.
const MARK: usize = 34;

const FIRST_MARK: usize = 156;

fn build<'a>(
    words: &[u32],
    tracks: &'a [u32],
    markers: &'a [u32],
    lengths: &'a [u32],
    header: &mut [u8],
    trailer: &mut [u8],
) -> Answer {
    let lent = Lent {
        pools: Pools {
            text: &[],
            bytes: b"",
        },
        tracks,
        markers,
        comments: &[],
        callers: &[],
        lengths,
    };
    word_builds::build::build(words, &lent, header, trailer)
}

// The number of the refusal, 0 for none.
fn answer(
    rt: &impl Print,
    title: &str,
    words: &[u32],
    markers: &[u32],
    lengths: &[u32],
) -> io::Result<()> {
    let mut header = [0xEEu8; 512];
    let mut trailer = [0xEEu8; 64];
    let a = build(words, &[], markers, lengths, &mut header, &mut trailer);
    println!(rt; "{title}: {}", number_of(a))
}

// The frame that a marker's time names.
fn frame(mark: &[u8; MARK]) -> u64 {
    let hours = u64::from(u16::from_be_bytes([mark[12], mark[13]]));
    let minutes = u64::from(mark[14]);
    let seconds = u64::from(mark[15]);
    let samples = u64::from(u32::from_be_bytes([mark[16], mark[17], mark[18], mark[19]]));
    hours * 270_000 + minutes * 4_500 + seconds * 75 + samples / 37_632
}

fn kind(mark: &[u8; MARK]) -> &'static str {
    match u16::from_be_bytes([mark[24], mark[25]]) {
        0 => "start",
        1 => "stop",
        2 => "program start",
        _ => "another kind",
    }
}

fn tracks(rt: &impl Print) -> io::Result<()> {
    let mut words = PLAIN;
    words[23] = 1;
    let rows = [0, 75, 0, 0, 75, 75, 0, 0];
    let mut header = [0xEEu8; 512];
    let mut trailer = [0xEEu8; 64];
    let a = build(&words, &rows, &[], &[], &mut header, &mut trailer);
    print!(rt; "tracks 0 to 75 and 75 to 150 of playtime 150:")?;
    let (marks, _) = header[FIRST_MARK..].as_chunks::<MARK>();
    for mark in marks.iter().take(4) {
        print!(rt; " {} {}", kind(mark), frame(mark))?;
    }
    let [header, _, _] = build_values(a);
    println!(rt; "; the header has {header} bytes")
}

fn markers(rt: &impl Print) -> io::Result<()> {
    let mut words = PLAIN;
    words[23] = 1;
    words[27] = 1;
    answer(rt, "a marker at end", &words, &[150, 0, 0, 0], &[])?;
    answer(rt, "a marker at end + 1", &words, &[151, 0, 0, 0], &[])
}

fn lengths(rt: &impl Print) -> io::Result<()> {
    let mut words = PLAIN;
    words[0] = 1;
    words[5] = 1;
    answer(rt, "a frame of 65,536 bytes", &words, &[], &[65_536])?;
    answer(rt, "a frame of 0 bytes", &words, &[], &[0])?;
    answer(rt, "a frame of 65,537 bytes", &words, &[], &[65_537])
}

fn channel_numbers(rt: &impl Print) -> io::Result<()> {
    let mut words = PLAIN;
    words[2] = 3;
    words[3] = 3;
    words[6] = 1;
    words[7] = 3;
    words[8] = 5;
    words[9] = 5;
    words[10] = 1_000;
    answer(rt, "channel numbers 5, 5, 1000", &words, &[], &[])
}

pub(crate) fn figures(rt: &impl Print) -> io::Result<()> {
    tracks(rt)?;
    markers(rt)?;
    lengths(rt)?;
    channel_numbers(rt)
}
