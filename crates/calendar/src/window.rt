// Windows of date and minute.
ghost use Rattle.std.specs.Prelude.{◌≡◌};
ghost use Rattle.calendar.specs.Window.{is_inside, window_fault, falls_in, falls_value};

use crate::date::{Stamp, date_fault, is_undated, note_fault};
use crate::order::earlier;
use refusal::verdict::{Refusal, Verdict};

// Whether a note falls in a window, or the refusal.
pub type Falls = Result<bool, Refusal>;

// Whether a note is dated and lies in the window.
fn is_inside(start: Stamp, end: Stamp, note: Stamp) -> bool
    ensures { result ≡ is_inside start end note }
{
    !is_undated(note) & (!earlier(note, start) & earlier(note, end))
}

// 34 or 46 of start, end and note.
fn window_fault(start: Stamp, end: Stamp, note: Stamp) -> Verdict
    ensures { result ≡ window_fault start end note }
{
    date_fault(start)?;
    date_fault(end)?;
    note_fault(note)
}

// Whether a note falls in a window, its start counted in and its end counted out.
pub fn falls_in(start: Stamp, end: Stamp, note: Stamp) -> Falls
    ensures { result ≡ falls_in start end note }
{
    window_fault(start, end, note)?;
    Ok(is_inside(start, end, note))
}

// 1 where the note falls in, else 0; or the refusal's detail.
pub fn falls_value(falls: Falls) -> u64
    ensures { result ≡ falls_value falls }
{
    match falls {
        Ok(inside) => u64::from(inside),
        Err(refusal) => refusal.detail(),
    }
}
