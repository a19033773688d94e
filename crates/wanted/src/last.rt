// The article whose record or row went by last, and its rank on the list. Rows of an article mostly stand together: so the next one is compared
// with it before the list is asked.
ghost use Rattle.std.specs.Prelude.{length};
ghost use Rattle.rules.specs.Layout.{whole};
ghost use Rattle.rules.specs.BookLayout.{kinded};
ghost use Rattle.layout.specs.Reads.{part};
ghost use Rattle.wanted.specs.Last.{PartOf, RecordAt, LastIs, LastNamed, LastAfter};

use crate::table::Table;
use layout::names::same_bytes;
use layout::numbers::wide;

// Its number stands in the book from `from` to `to`. It has no rank if the article is not on the list.
#[derive(Clone, Copy)]
pub struct Last {
    pub from: usize,
    pub to: usize,
    pub rank: Option<usize>,
}

impl Last {
    // Before any record: a name of no bytes, at the front of the book.
    pub fn first(b: &[u8], table: &Table) -> Last
        ensures { LastIs b.now table.now.bytes.now table.now.names.now (length table.now.names.now) result }
    {
        Last {
            from: 0,
            to: 0,
            rank: table.find(&b[0..0]),
        }
    }

    // The article whose number stands from `from` to `to`.
    fn named(self, b: &[u8], from: usize, to: usize, table: &Table) -> Last
        requires part_of { PartOf b.now from to }
        requires last_is { LastIs b.now table.now.bytes.now table.now.names.now (length table.now.names.now) self }
        ensures { LastNamed b.now table.now.bytes.now table.now.names.now (length table.now.names.now) from to result }
    {
        if same_bytes(&b[self.from..self.to], &b[from..to]) {
            return self;
        }
        let rank = table.find(&b[from..to]);
        Last { from, to, rank }
    }

    // Once the record from `start` to `end` has gone by: any but an article or a row leaves the last one.
    pub fn after(self, b: &[u8], start: usize, end: usize, table: &Table) -> Last
        requires record_at { RecordAt b.now start end }
        requires last_is { LastIs b.now table.now.bytes.now table.now.names.now (length table.now.names.now) self }
        ensures { LastAfter b.now table.now.bytes.now table.now.names.now (length table.now.names.now) (whole kinded (part b.now start end)) result }
    {
        let t = &b[start..end];
        let kind = t[0];
        if (kind == 1) | (kind == 2) {
            let from = start + 2;
            let to = from + wide(t[1]);
            return self.named(b, from, to, table);
        }
        self
    }
}
