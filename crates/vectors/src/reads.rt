// A recorded window, asked and read again.
use crate::buffers::{FILL, front};
use crate::counts::{Count, Counts};
use crate::file::{Ends, File};
use crate::number::{Numbers, count};
use crate::recorded_window::Window;
use crate::{frames, recorded_window, unpack};
use file_read::read::Request;
use prop_fields::compression::Sound;
use read_answer::answer::{ReadAnswer, query_values, read_value};
use refusal::verdict::number_of;

// Bytes of a channel's content.
const FRAME: usize = 4_704;

// Room for what is read, and for the frames and contents that are lent.
const ROOM: usize = 12_288;

const FRAMES: usize = 70_000;

const CONTENTS: usize = 90_000;

// Whether the query is answered as recorded: only 42 refuses one.
fn is_asked(f: File, w: Window) -> bool {
    let given = file_query::query::query(
        f.format, f.lengths, f.header, f.trailer, w.offset, w.room,
    );
    if w.refusal == Some(42) {
        number_of(given) == 42 && query_values(given) == [0, 0]
    } else {
        number_of(given) == 0 && query_values(given) == [w.first, w.end]
    }
}

fn call<'a>(f: File<'a>, ends: Ends<'a>, w: Window, out: &mut [u8]) -> ReadAnswer {
    let first = count(w.first);
    let end = count(w.end);
    let mut dst = [0; FRAMES];
    frames::frames(&mut dst, f.seed, f.lengths, first, end);
    let mut contents = [0; CONTENTS];
    let length = f.format.channels as usize * FRAME;
    frames::contents(&mut contents, f.seed, first, end, length);
    let request = Request {
        format: f.format,
        lengths: f.lengths,
        header: ends.header,
        trailer: ends.trailer,
        offset: w.offset,
        lent: f
            .lengths
            .get(first..first.saturating_add(w.lent))
            .unwrap_or_default(),
        frames: front(&dst, w.frames),
        contents: front(&contents, w.contents),
    };
    file_read::read::read(&request, out)
}

// The bytes that are recorded, into a buffer. How many, if they are bytes.
fn recorded(numbers: &mut Numbers, w: Window, wanted: &mut [u8]) -> Option<usize> {
    match w.refusal {
        None => unpack::bytes(numbers, wanted),
        Some(_) => Some(0),
    }
}

fn answers(f: File, ends: Ends, w: Window, filled: usize, out: &mut [u8]) -> bool {
    match out.get_mut(..count(w.room)) {
        Some(out) => {
            let given = call(f, ends, w, out);
            u64::from(number_of(given)) == w.refusal.unwrap_or(0)
                && read_value(given) == filled as u64
        }
        None => false,
    }
}

// Whether the read fills what is recorded and leaves the rest of a buffer of FILL.
fn fills(numbers: &mut Numbers, counts: &mut Counts, f: File, ends: Ends, w: Window) -> bool {
    let mut out = [FILL; ROOM];
    let mut wanted = [FILL; ROOM];
    let Some(filled) = recorded(numbers, w, &mut wanted) else {
        return false;
    };
    let agrees = answers(f, ends, w, filled, &mut out) && out == wanted;
    if agrees {
        counts.add(Count::FilledBytes, filled);
    }
    agrees
}

fn read(numbers: &mut Numbers, counts: &mut Counts, f: File, ends: Ends, w: Window) -> bool {
    let agrees = fills(numbers, counts, f, ends, w);
    counts.add_if(Count::Filled, w.refusal.is_none());
    counts.add_if(Count::NotFilled, w.refusal.is_some());
    counts.add_if(Count::ReadsAgree, agrees);
    agrees
}

// Whether the query is as recorded.
fn query(counts: &mut Counts, f: File, w: Window) -> bool {
    let agrees = is_asked(f, w);
    counts.add(Count::Queries, 1);
    counts.add_if(Count::QueriesAgree, agrees);
    counts.add_if(Count::Alone, w.alone);
    if let Some(number) = w.refusal {
        counts.add_refusal(number);
    }
    let kind = match f.format.sound {
        Sound::Dsd => Count::WindowsDsd,
        Sound::Dst if f.format.crc => Count::WindowsDstWithCrcs,
        Sound::Dst => Count::WindowsDst,
    };
    counts.add(kind, 1);
    agrees
}

fn run_one(numbers: &mut Numbers, counts: &mut Counts, f: File, ends: Option<Ends>) -> bool {
    let w = recorded_window::read(numbers);
    let asked = query(counts, f, w);
    match ends {
        Some(ends) => read(numbers, counts, f, ends, w) && asked,
        None => asked,
    }
}

// The windows of a file. Whether all are as recorded.
pub(crate) fn run(numbers: &mut Numbers, counts: &mut Counts, f: File, ends: Option<Ends>) -> bool {
    let mut agrees = true;
    for _ in 0..numbers.take_count() {
        agrees = run_one(numbers, counts, f, ends) && agrees;
    }
    agrees
}
