// A block: days in a row that are asked about one after the other. A row that is the same to all of them is seen once, any other is noted.
ghost use Rattle.rules.specs.Layout.{whole};
ghost use Rattle.rules.specs.BookLayout.{kinded};
ghost use Rattle.records.specs.Asks.{Accepted};
ghost use Rattle.records.specs.Ensures.{row_in, RowIs};
ghost use Rattle.choice.specs.Block.{RowThrough, PassesThrough};

use crate::hands::Passing;
use crate::passing::{counts, placed, slot_of};
use days::Day;
use grants::asking::Asking;
use records::{is_row, row_of};
use rules::PriceRow;

// What a record is on the days of a block: it counts on none of them, or is the same row on each; or it is noted, since it is not.
#[derive(Clone, Copy)]
pub enum Through {
    Never,
    Always(Passing),
    Sometimes,
}

// A row of the asked article and sort, from the day that is asked for to the last day. Its condition is looked for once, whatever it is.
fn row_through(t: &[u8], row: PriceRow, at: usize, asking: &Asking, last: Day) -> Through
    requires { RowIs t.now row }
    ensures { RowThrough asking.now.table.now asking.now.terms last.0 at (row_in t.now row) result }
{
    if (last.0 < row.from) | (row.to < asking.terms.date.0) {
        return Through::Never;
    }
    let Some(slot) = slot_of(t, row, asking) else {
        return Through::Never;
    };
    if last.0 <= row.to && counts(row, asking.terms.date) {
        return Through::Always(placed(row, at, slot, asking.terms));
    }
    Through::Sometimes
}

// The record that stands at `at` and has the body t.
pub fn record_through(t: &[u8], at: usize, asking: &Asking, last: Day) -> Through
    requires { Accepted t.now }
    ensures { PassesThrough asking.now.article.now asking.now.table.now asking.now.terms last.0 at (whole kinded t.now) result }
{
    if is_row(t, asking.article, asking.terms.sort) {
        row_through(t, row_of(t), at, asking, last)
    } else {
        Through::Never
    }
}
