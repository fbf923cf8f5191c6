// dates.rt of abi, for C.
ghost use Rattle.std.specs.Prelude.{◌≡◌};
ghost use Rattle.refusal.specs.Verdict.{number_of};
ghost use Rattle.calendar.specs.Date.{date_fault, note_fault};
ghost use Rattle.calendar.specs.Order.{earlier};
ghost use Rattle.calendar.specs.Window.{falls_in};
ghost use Rattle.abi.specs.Dates.{stamp_of_words, FallsTold};

#[unsafe(no_mangle)]
pub extern "C" fn jangqeruz_date_fault(date: &[u32; 5]) -> u64
    ensures { result ≡ number_of (date_fault (stamp_of_words date.now)) }
{
    abi::dates::jangqeruz_date_fault(date)
}

#[unsafe(no_mangle)]
pub extern "C" fn jangqeruz_note_fault(note: &[u32; 5]) -> u64
    ensures { result ≡ number_of (note_fault (stamp_of_words note.now)) }
{
    abi::dates::jangqeruz_note_fault(note)
}

#[unsafe(no_mangle)]
pub extern "C" fn jangqeruz_earlier(a: &[u32; 5], b: &[u32; 5]) -> bool
    ensures { result ≡ earlier (stamp_of_words a.now) (stamp_of_words b.now) }
{
    abi::dates::jangqeruz_earlier(a, b)
}

#[unsafe(no_mangle)]
pub extern "C" fn jangqeruz_falls_in(
    falls: &mut [u64; 1],
    start: &[u32; 5],
    end: &[u32; 5],
    note: &[u32; 5],
) -> u64
    ensures { FallsTold (falls_in (stamp_of_words start.now) (stamp_of_words end.now) (stamp_of_words note.now)) falls.new result }
{
    abi::dates::jangqeruz_falls_in(falls, start, end, note)
}
