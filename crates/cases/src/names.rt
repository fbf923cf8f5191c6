// The lines of the table that begin with = give a name and the place that it stands for.
use crate::case::WORDS;
use crate::number::number;
use crate::part::split_name;

// A word, by its place, or a list.
#[derive(Clone, Copy)]
pub enum Target {
    Word(usize),
    Pool,
    Raw,
    Tracks,
    Markers,
    Comments,
    Callers,
    Lengths,
}

impl Target {
    // The words come first, then the lists.
    fn numbered(number: u32) -> Option<Target> {
        match number {
            67 => Some(Target::Pool),
            68 => Some(Target::Raw),
            69 => Some(Target::Tracks),
            70 => Some(Target::Markers),
            71 => Some(Target::Comments),
            72 => Some(Target::Callers),
            73 => Some(Target::Lengths),
            _ if (number as usize) < WORDS => Some(Target::Word(number as usize)),
            _ => None,
        }
    }
}

// The place that this line gives to the name, if it is a line of that kind: = place name meaning. A name has the space before
// it. The largest number is no place.
fn on_line(line: &[u8], name: &[u8]) -> Option<u32> {
    let [b'=', entry @ ..] = line else {
        return None;
    };
    let entry = entry.get(1..).unwrap_or_default();
    let end = entry.iter().position(|b| *b == b' ');
    let (place, rest) = entry.split_at(end.unwrap_or(entry.len()));
    let (found, _) = split_name(rest);
    let place = number(place);
    (found == name && place != u32::MAX).then_some(place)
}

pub(crate) fn place(table: &[u8], name: &[u8]) -> Option<Target> {
    table
        .split(|b| *b == b'\n')
        .find_map(|line| on_line(line, name))
        .and_then(Target::numbered)
}
