// The order of stamps, to the minute.
ghost use Rattle.std.specs.Prelude.{◌≡◌};
ghost use Rattle.calendar.specs.Order.{earlier};

use crate::date::Stamp;

// Whether a is earlier than b.
pub fn earlier(a: Stamp, b: Stamp) -> bool
    ensures { result ≡ earlier a b }
{
    a < b
}
