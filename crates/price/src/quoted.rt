// The quote of an accepted question.
ghost use Rattle.question.specs.Asked.{ask_in, AskIs};
ghost use Rattle.survey.specs.Window.{Windows};
ghost use Rattle.quote.specs.Quote.{Quoted};

use grants::asking::Asking;
use grants::terms::wanted_in;
use question::Ask;
use quote::{Quote, quote_of};
use survey::window::Window;

pub fn quoted(book: &[u8], window: Window, question: &[u8], ask: Ask) -> Quote
    requires ask_is { AskIs question.now ask }
    requires windows { Windows book.now 5 (ask_in question.now ask).article ask.sort window }
    ensures { Quoted book.now (ask_in question.now ask) result }
{
    let wanted = wanted_in(question, ask);
    quote_of(book, window, &Asking::of(question, ask, &wanted))
}
