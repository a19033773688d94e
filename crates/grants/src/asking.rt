// What a question asks, as far as a price depends on it: handed from walk to walk as one.
ghost use Rattle.question.specs.Asked.{AskIs};
ghost use Rattle.grants.specs.Asks.{Tabled, WantedIs};

use crate::terms::{Terms, Wanted};
use days::Day;
use question::Ask;

// The article's name, the table of the granted names, and the terms, which name no more places than the table has.
#[derive(Clone, Copy)]
pub struct Asking<'a> {
    pub article: &'a [u8],
    pub table: &'a [u8],
    pub terms: Terms,
    ghost tabled: { Tabled table.now terms },
}

impl<'a> Asking<'a> {
    ghost use Rattle.grants.specs.Asking.{AskingIs, AskingOn};

    // What the question asks. The article stays in it, and is cut out of it here.
    pub fn of(question: &'a [u8], ask: Ask, wanted: &'a Wanted) -> Asking<'a>
        requires ask_is { AskIs question.now ask }
        requires wanted_is { WantedIs question.now ask wanted.now }
        ensures { AskingIs question.now ask result }
    {
        let part = ask.article;
        Asking {
            article: &question[part.at..part.at + part.size],
            table: &wanted.table,
            terms: wanted.terms,
        }
    }

    // The same on another day.
    pub fn on(&self, date: Day) -> Asking<'a>
        ensures { AskingOn self.now date.0 result }
    {
        let terms = self.terms;
        Asking {
            article: self.article,
            table: self.table,
            terms: Terms { date, ..terms },
        }
    }
}
