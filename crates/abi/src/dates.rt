// Dates of comments. A stamp is five words: year, month, day, hour and minutes, as a comment's row begins with them. Where a refusal is answered, it is by
// its number, 34 or 46, 0 for none.
ghost use Rattle.std.specs.Prelude.{◌≡◌};
ghost use Rattle.refusal.specs.Verdict.{number_of};
ghost use Rattle.calendar.specs.Date.{date_fault, note_fault};
ghost use Rattle.calendar.specs.Order.{earlier};
ghost use Rattle.calendar.specs.Window.{falls_in};
ghost use Rattle.abi.specs.Dates.{stamp_of_words, FallsTold};

use calendar::date::{Stamp, date_fault, note_fault};
use calendar::order::earlier;
use calendar::window::{falls_in, falls_value};
use refusal::verdict::number_of;

#[tactic(auto, unfolding(crate::specs::Dates::stamp_of_words))]
fn stamp(words: [u32; 5]) -> Stamp
    ensures { result ≡ stamp_of_words words }
{
    let [year, month, day, hour, minutes] = words;
    Stamp {
        year,
        month,
        day,
        hour,
        minutes,
    }
}

// What is wrong with a date that a window starts or ends with.
#[unsafe(no_mangle)]
pub extern "C" fn jangqeruz_date_fault(date: &[u32; 5]) -> u64
    ensures { result ≡ number_of (date_fault (stamp_of_words date.now)) }
{
    number_of(date_fault(stamp(*date))) as u64
}

// What is wrong with the date of a comment, which may be undated: month and day both 0.
#[unsafe(no_mangle)]
pub extern "C" fn jangqeruz_note_fault(note: &[u32; 5]) -> u64
    ensures { result ≡ number_of (note_fault (stamp_of_words note.now)) }
{
    number_of(note_fault(stamp(*note))) as u64
}

// Whether `a` is earlier than `b`, by year, then month, day, hour and minutes. Nothing is refused.
#[unsafe(no_mangle)]
pub extern "C" fn jangqeruz_earlier(a: &[u32; 5], b: &[u32; 5]) -> bool
    ensures { result ≡ earlier (stamp_of_words a.now) (stamp_of_words b.now) }
{
    earlier(stamp(*a), stamp(*b))
}

// Whether a comment falls in a window, its start counted in and its end counted out; an undated one falls in none. `falls` gets 1 or 0, or the refusal's detail.
#[unsafe(no_mangle)]
pub extern "C" fn jangqeruz_falls_in(
    falls: &mut [u64; 1],
    start: &[u32; 5],
    end: &[u32; 5],
    note: &[u32; 5],
) -> u64
    ensures { FallsTold (falls_in (stamp_of_words start.now) (stamp_of_words end.now) (stamp_of_words note.now)) falls.new result }
{
    let told = falls_in(stamp(*start), stamp(*end), stamp(*note));
    *falls = [falls_value(told)];
    number_of(told) as u64
}
