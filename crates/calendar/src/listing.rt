// The stretches that a call asks for, or its refusal: 1, 2, 9 and 3, in this order.
ghost use Rattle.std.specs.Prelude.{◌<◌};
ghost use Rattle.layout.specs.Records.{records_left};
ghost use Rattle.question.specs.Asked.{ask_in, AskIs};
ghost use Rattle.survey.specs.Survey.{FoundIs};
ghost use Rattle.rules.specs.Calendar.{listing, within};
ghost use Rattle.rules.specs.Reasons.{number_for};
ghost use Rattle.calendar.specs.Listing.{Refused, ListingIs};

use period::period_to;
use question::Ask;
use rules::Refusal;
use stretches::asked::stretches_in;
use stretches::{NO_STRETCH, Stretches};
use survey::Found;
use survey::entrance::enter;

// With a number other than 0 nothing is listed. Not a `Result`: the list is 26 KB, and every `?` that it went through would copy it on a
// stack that is nearly full.
#[derive(Clone, Copy)]
pub struct Listing {
    pub stretches: Stretches,
    pub number: u8,
}

// Nothing listed, beside the number of a refusal.
pub fn refused(number: u8) -> Listing
    requires { 0 < number }
    ensures { Refused number result }
{
    let stretches = Stretches {
        list: [NO_STRETCH; 1096],
        n: 0,
    };
    Listing { stretches, number }
}

impl From<Refusal> for Listing {
    ghost from_gives = { λ x r. Refused (number_for x) r };

    fn from(refusal: Refusal) -> Listing {
        let list = [NO_STRETCH; 1096];
        Listing {
            stretches: Stretches { list, n: 0 },
            number: u8::from(refusal),
        }
    }
}

// For an accepted book and question.
fn listing_within(book: &[u8], found: Found, question: &[u8], ask: Ask, end: u32) -> Listing
    requires ask_is { AskIs question.now ask }
    requires found_is { FoundIs book.now (ask_in question.now ask).article ask.sort found }
    ensures { ListingIs (within (records_left book.now 5) (ask_in question.now ask) end) result }
{
    let Some(period) = period_to(ask.date, end) else {
        return Listing::from(Refusal::BadPeriod);
    };
    match found.known() {
        Ok(window) => Listing {
            stretches: stretches_in(book, question, ask, window, period.as_slice()),
            number: 0,
        },
        Err(refusal) => Listing::from(refusal),
    }
}

pub fn listing_of(book: &[u8], question: &[u8], end: u32) -> Listing
    ensures { ListingIs (listing book.now question.now end) result }
{
    match enter(book, question) {
        Ok(entered) => listing_within(book, entered.found, question, entered.ask, end),
        Err(refusal) => Listing::from(refusal),
    }
}
