// What a walk over a book keeps of an article on the list, and what is told of it in the end.
ghost use Rattle.rules.specs.Layout.{whole};
ghost use Rattle.rules.specs.BookLayout.{kinded};
ghost use Rattle.records.specs.Asks.{Accepted};
ghost use Rattle.records.specs.Tests.{is_rounding};
ghost use Rattle.survey.specs.Window.{SpanAfter};
ghost use Rattle.wanted.specs.Entries.{EntryAfter, ToldIs};

use records::{is_rounding, row_of};
use survey::Sighted;
use survey::window::{Span, Spans};

// Whether its record has gone by, and from where to where rows of it stand: those for sale, and those for purchase.
#[derive(Clone, Copy)]
pub struct Entry {
    pub found: bool,
    pub sale: Span,
    pub purchase: Span,
}

impl Entry {
    // What is kept of an article once a record of it, from `at` to `end`, has gone by.
    pub fn seen(self, t: &[u8], at: usize, end: usize) -> Entry
        requires { Accepted t.now }
        ensures { EntryAfter self (whole kinded t.now) at end result }
    {
        let kind = t[0];
        let found = self.found | (kind == 1);
        if kind != 2 {
            return Entry {
                found,
                sale: self.sale,
                purchase: self.purchase,
            };
        }
        let row = row_of(t);
        let sold = row.sort == b'S';
        Entry {
            found,
            sale: self.sale.widened(sold, at, end),
            purchase: self.purchase.widened(!sold, at, end),
        }
    }

    // What is told of an article, for rows of this sort.
    pub fn told(self, sort: u8, roundings: Span) -> Sighted
        ensures { ToldIs self sort roundings result }
    {
        let sale = self.sale;
        let purchase = self.purchase;
        let rows = if sort == b'S' { sale } else { purchase };
        Sighted {
            article: self.found,
            spans: Spans { rows, roundings },
        }
    }
}

// Where the roundings stand once a record, from `at` to `end`, has gone by.
pub fn roundings_after(roundings: Span, t: &[u8], at: usize, end: usize) -> Span
    requires { Accepted t.now }
    ensures { SpanAfter roundings (is_rounding (whole kinded t.now)) at end result }
{
    roundings.widened(is_rounding(t), at, end)
}
