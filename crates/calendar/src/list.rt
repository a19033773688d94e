// What is handed over where the stretches go out as a list of records. The list itself is filled by crate plugin.
ghost use Rattle.std.specs.Prelude.{◌<◌};
ghost use Rattle.calendar.specs.Listing.{StretchAt, ListAnswer};

use crate::answer;
use crate::listing::Listing;
use rules::CalendarAnswer;
use stretches::Stretch;

// How many records the call hands over, and its number.
pub fn list_answer(listing: &Listing, room: usize) -> CalendarAnswer
    ensures { ListAnswer listing.now room result }
{
    answer(listing.number, listing.stretches.n, room)
}

// The i-th stretch is itself the record that is handed over.
pub fn stretch_at(listing: &Listing, i: usize) -> Stretch
    requires { i < 1096 }
    ensures { StretchAt listing.now i result }
{
    listing.stretches.list[i]
}
