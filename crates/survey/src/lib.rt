// A book accepted, and what is asked for found in it, in one pass: whether an article has a record, and where its rows of one sort and the
// roundings stand.
#![tactic(auto)]

pub mod entrance;
mod own;
pub mod window;

ghost use Rattle.std.specs.Prelude.{◌≡◌, true};
ghost use Rattle.rules.specs.Lists.{is_some};
ghost use Rattle.rules.specs.Layout.{whole};
ghost use Rattle.rules.specs.BookLayout.{kinded, records};
ghost use Rattle.records.specs.Asks.{Accepted};
ghost use Rattle.survey.specs.Own.{EndingIs};
ghost use Rattle.survey.specs.Survey.{SightedAfter, FoundOf, FoundIs, IsKnown, SurveyIs};

use crate::own::{ending_of, is_own};
use crate::window::{Noted, Span, Spans, Window};
use book::{record_end, record_stop};
use layout::heads::book_head_ok;
use records::{is_article, is_rounding};
use rules::Refusal;

// What a pass keeps of an article in every turn: whether its record has gone by, and the spans of its rows of the sort and of the roundings.
#[derive(Clone, Copy)]
pub struct Sighted {
    pub article: bool,
    pub spans: Spans,
}

// Behind the header, and still empty.
const START: Span = Span { first: 5, last: 5 };

impl Sighted {
    // The spans are behind the header, and still empty.
    pub const NOTHING: Sighted = Sighted {
        article: false,
        spans: Spans {
            rows: START,
            roundings: START,
        },
    };

    // What is kept once the record t, which stands from `at` to `end`, has gone by too. Each kind is looked at for one thing alone.
    fn after(
        self,
        t: &[u8],
        at: usize,
        end: usize,
        article: &[u8],
        ending: usize,
        sort: u8,
    ) -> Sighted
        requires accepted { Accepted t.now }
        requires ending_is { EndingIs article.now ending }
        ensures { SightedAfter self article.now sort (whole kinded t.now) at end result }
    {
        let spans = self.spans;
        if t[0] == 2 {
            let own = is_own(t, article, ending, sort);
            return Sighted {
                article: self.article,
                spans: spans.widened(own, false, at, end),
            };
        }
        if is_rounding(t) {
            return Sighted {
                article: self.article,
                spans: spans.widened(false, true, at, end),
            };
        }
        Sighted {
            article: self.article | is_article(t, article),
            spans,
        }
    }

    // What was found, with what was noted of the roundings.
    pub fn found(self, noted: Noted) -> Found
        ensures { FoundOf self noted result }
    {
        let spans = self.spans;
        Found {
            article: self.article,
            window: Window { spans, noted },
        }
    }
}

// Whether the article has a record, and where its rows of the sort and the roundings stand: of an article without a record too, as `FoundIs` says.
#[derive(Clone, Copy)]
pub struct Found {
    pub article: bool,
    pub window: Window,
}

impl Found {
    // The window of an article that has a record.
    pub fn known(self) -> Result<Window, Refusal>
        ensures { IsKnown self result }
    {
        if self.article {
            Ok(self.window)
        } else {
            Err(Refusal::NoArticle)
        }
    }
}

// In a book that was accepted before.
pub fn find(b: &[u8], article: &[u8], sort: u8) -> Found
    requires { is_some (records b.now) ≡ true }
    ensures { FoundIs b.now article.now sort result }
{
    let ending = ending_of(article);
    let mut seen = Sighted::NOTHING;
    let mut noted = Noted::NONE;
    let mut at = 5;
    while at < b.len() {
        let end = record_stop(b, at);
        let start = at + 2;
        let t = &b[start..end];
        seen = seen.after(t, at, end, article, ending, sort);
        noted.note_spot(t, at);
        at = end;
    }
    seen.found(noted)
}

// If b is a book, what is found in it. Each record is tested and looked at once. The spots of roundings stand beside what is kept from turn to
// turn, and only a rounding touches them: with them in it, each turn would copy them all.
pub fn survey(b: &[u8], article: &[u8], sort: u8) -> Option<Found>
    ensures { SurveyIs b.now article.now sort result }
{
    if !book_head_ok(b) {
        return None;
    }
    let ending = ending_of(article);
    let mut seen = Sighted::NOTHING;
    let mut noted = Noted::NONE;
    let mut at = 5;
    while at < b.len() {
        let end = record_end(b, at)?;
        let start = at + 2;
        let t = &b[start..end];
        seen = seen.after(t, at, end, article, ending, sort);
        noted.note_spot(t, at);
        at = end;
    }
    Some(seen.found(noted))
}

// Whether b is a price book, by the same pass: so the calls have one loop over the records of a book, into which their tests are written.
pub fn is_book(b: &[u8]) -> bool
    ensures { result ≡ is_some (records b.now) }
{
    survey(b, &b[..0], 0).is_some()
}
