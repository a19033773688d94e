// Where in the book the rows of an article and sort stand, and where the roundings: later walks and lookups may keep to these stretches. The
// spots of the roundings are noted too where they are few, so that none of them is walked for again.
ghost use Rattle.std.specs.Prelude.{◌≡◌, length};
ghost use Rattle.rules.specs.Layout.{whole};
ghost use Rattle.rules.specs.BookLayout.{kinded};
ghost use Rattle.records.specs.Asks.{Accepted};
ghost use Rattle.records.specs.Tests.{is_rounding};
ghost use Rattle.survey.specs.Window.{SpanAfter, SpansAfter, SpotNoted};

use records::is_rounding;

// So many spots of roundings are noted.
const MOST_NOTED: usize = 16;
// The count of the roundings where they are more.
pub const MANY: usize = 17;

// How many roundings there are, and where each stands: the first `count` of the spots. Where there are many, no spot counts.
// As it is: an array with its count, since the library takes no heap.
#[derive(Clone, Copy)]
pub struct Noted {
    pub count: usize,
    pub spots: [usize; MOST_NOTED],
}

impl Noted {
    // No rounding has gone by.
    pub const NONE: Noted = Noted {
        count: 0,
        spots: [0; MOST_NOTED],
    };

    // The record t at `at` has gone by: a rounding is counted, and its spot noted if it is one of few.
    pub fn note_spot(&mut self, t: &[u8], at: usize)
        requires spots_len { length self.old.spots ≡ 16 }
        requires accepted { Accepted t.now }
        ensures { SpotNoted self.old (is_rounding (whole kinded t.now)) at self.new }
    {
        if !is_rounding(t) {
            return;
        }
        let count = self.count;
        if count < MOST_NOTED {
            self.spots[count] = at;
            self.count = count + 1;
            return;
        }
        self.count = MANY;
    }
}

// From the first record that counts to the end of the last; while there is none, both are the same.
#[derive(Clone, Copy)]
pub struct Span {
    pub first: usize,
    pub last: usize,
}

impl Span {
    // The span once the record from `at` to `end` has gone by, if that counts.
    pub fn widened(self, counts: bool, at: usize, end: usize) -> Span
        ensures { SpanAfter self counts at end result }
    {
        if !counts {
            return self;
        }
        if self.first == self.last {
            return Span {
                first: at,
                last: end,
            };
        }
        Span {
            first: self.first,
            last: end,
        }
    }
}

// All rows of the article and sort stand in the one, all roundings in the other.
#[derive(Clone, Copy)]
pub struct Spans {
    pub rows: Span,
    pub roundings: Span,
}

impl Spans {
    // The spans once a record has gone by: it may be a row of the article and sort, or a rounding.
    pub fn widened(self, own: bool, rounding: bool, at: usize, end: usize) -> Spans
        ensures { SpansAfter self own rounding at end result }
    {
        Spans {
            rows: self.rows.widened(own, at, end),
            roundings: self.roundings.widened(rounding, at, end),
        }
    }
}

// The spans, and the roundings noted.
#[derive(Clone, Copy)]
pub struct Window {
    pub spans: Spans,
    pub noted: Noted,
}
