// The stretches that an accepted question asks for.
ghost use Rattle.std.specs.Prelude.{◌<◌, length};
ghost use Rattle.rules.specs.Calendar.{outcome, stretches};
ghost use Rattle.layout.specs.Records.{records_left};
ghost use Rattle.question.specs.Asked.{ask_in, AskIs};
ghost use Rattle.survey.specs.Window.{Windows};
ghost use Rattle.period.specs.Positions.{Dates};
ghost use Rattle.stretches.specs.Stretches.{Lists};

use crate::Stretches;
use crate::walk::stretches_of;
use grants::asking::Asking;
use grants::terms::wanted_in;
use outcomes::outcomes_of;
use period::marks::marks_of;
use question::Ask;
use survey::window::Window;

// Those of these dates: the days of change are marked once, and only they are priced.
pub fn stretches_in(
    book: &[u8],
    question: &[u8],
    ask: Ask,
    window: Window,
    dates: &[u32],
) -> Stretches
    requires ask_is { AskIs question.now ask }
    requires windows { Windows book.now 5 (ask_in question.now ask).article ask.sort window }
    requires dates { Dates dates.now }
    requires dates_nonzero { 0 < length dates.now }
    ensures { Lists (stretches (outcome (records_left book.now 5) (ask_in question.now ask)) dates.now) result }
{
    let wanted = wanted_in(question, ask);
    let asking = Asking::of(question, ask, &wanted);
    let own = window.spans.rows;
    let marks = marks_of(
        &book[..own.last],
        own.first,
        asking.article,
        asking.terms.sort,
        dates,
    );
    let priced = outcomes_of(book, window, &asking, dates, &marks);
    stretches_of(dates, &marks, &priced)
}
