// What an article costs within its window of an accepted book, by terms and the table of granted names: no room is asked for, and nothing
// is written.
#![tactic(auto)]

mod unused;

ghost use Rattle.std.specs.Prelude.{◌≡◌, take};
ghost use Rattle.choice.specs.Block.{SharedOn};
ghost use Rattle.grants.specs.Asks.{Asked};
ghost use Rattle.survey.specs.Window.{Windows};
ghost use Rattle.quote.specs.Quote.{QuoteIs, OutcomeFor};

use crate::unused::unused;
use choice::Shared;
use grants::asking::Asking;
use grants::places::Places;
use lines::Pick;
use lines::verdict::{Verdict, judge};
use picks::chosen::Picks;
use picks::{picks_on, picks_within};
use rules::Outcome;
use survey::window::Window;

// The chosen rows; what is said of them, with the amounts of their lines; and the granted places that brought none.
#[derive(Drop)]
pub struct Quote {
    pub picks: Picks,
    pub verdict: Verdict,
    pub unused: Places,
}

impl Quote {
    pub fn rows(&self) -> &[Pick]
        ensures { result.now ≡ take self.now.picks.n self.now.picks.rows }
    {
        self.picks.as_slice()
    }
}

// The lines of the article and what they come to, or why there is no price.
pub fn quote_of(b: &[u8], w: Window, asking: &Asking) -> Quote
    requires asked { Asked asking.now.article.now asking.now.table.now asking.now.terms }
    requires windows { Windows b.now 5 asking.now.article.now asking.now.terms.sort w }
    ensures { QuoteIs b.now asking.now.article.now asking.now.table.now asking.now.terms result }
{
    let picks = picks_within(b, w, asking);
    let verdict = judge(picks.as_slice());
    let unused = unused(asking.table, picks.as_slice());
    Quote {
        picks,
        verdict,
        unused,
    }
}

// The outcome alone: what a calendar asks, day after day. By what the days of a block share.
pub fn outcome_on(b: &[u8], w: Window, asking: &Asking, shared: &Shared) -> Outcome
    requires asked { Asked asking.now.article.now asking.now.table.now asking.now.terms }
    requires windows { Windows b.now 5 asking.now.article.now asking.now.terms.sort w }
    requires shared_on { SharedOn (take w.spans.rows.last b.now) w.spans.rows.first asking.now.article.now asking.now.table.now asking.now.terms shared.now }
    ensures { OutcomeFor b.now asking.now.article.now asking.now.table.now asking.now.terms result }
{
    let picks = picks_on(b, w, asking, shared);
    let verdict = judge(picks.as_slice());
    verdict.outcome
}
