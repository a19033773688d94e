// Which bytes are one record of a price book: a kind byte and the body of that kind; and which character a scheme that gives none has.
#![tactic(auto)]

mod bodies;
mod packaging;

ghost use Rattle.rules.specs.Layout.{whole};
ghost use Rattle.rules.specs.BookLayout.{kinded};
ghost use Rattle.layout.specs.Ensures.{Accepts};
ghost use Rattle.pairs.specs.Pairs.{Front};

use crate::bodies::{article_ok, price_ok, rounding_ok, scheme_ok};
use crate::packaging::packaging_ok;
pub use bodies::given_or;
use pairs::names_end;

// Whether s is a kind byte and a body that fills it. What stands behind s in `rest` is no part of the record: only windows over names
// reach into it. All bodies but a rounding's begin with two names, which are found in one place, whatever the kind.
pub fn record_ok(s: &[u8], rest: &[u8]) -> bool
    requires { Front s.now rest.now }
    ensures { Accepts (whole kinded s.now) result }
{
    if s.len() < 1 {
        return false;
    }
    let kind = s[0];
    if kind == 3 {
        return rounding_ok(s, 1);
    }
    let Some(end) = names_end(s, rest, 1) else {
        return false;
    };
    // The byte is told apart here and handed on to nobody; an enum would have a rounding among these, an arm that is never taken.
    match kind {
        1 => article_ok(s, end),
        2 => price_ok(s, end),
        4 => packaging_ok(s, end),
        5 => scheme_ok(s, end),
        _ => false,
    }
}
