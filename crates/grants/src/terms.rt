// What a question asks beside its article: terms, and the table of its granted names. A walk is told these, and not the question.
ghost use Rattle.question.specs.Asked.{AskIs};
ghost use Rattle.grants.specs.Asks.{TermsAre, WantedIs};

use crate::{TABLE, grants_of};
use days::Day;
use question::Ask;
use rules::Currency;

// `names` is how many are granted.
// As it is: sort and currency are the question's, as in `Ask`.
#[derive(Clone, Copy)]
pub struct Terms {
    pub sort: u8,
    pub currency: Currency,
    pub date: Day,
    pub quantity: u32,
    pub names: usize,
}

// The granted names and the terms of a question, made once for a call.
#[derive(Drop)]
pub struct Wanted {
    pub table: [u8; TABLE],
    pub terms: Terms,
}

fn terms_of(ask: Ask) -> Terms
    ensures { TermsAre ask result }
{
    Terms {
        sort: ask.sort,
        currency: ask.currency,
        date: ask.date,
        quantity: ask.quantity,
        names: ask.conditions,
    }
}

// Made once for a call. The article stays in the question, and is cut out of it where it is lent.
pub fn wanted_in(question: &[u8], ask: Ask) -> Wanted
    requires { AskIs question.now ask }
    ensures { WantedIs question.now ask result }
{
    let table = grants_of(question, ask.granted, ask.conditions, ask.version);
    let terms = terms_of(ask);
    Wanted { table, terms }
}
