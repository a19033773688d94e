// The price of the chosen rows, or why there is none: refusals 4, 5 and 6 in that order.
ghost use Rattle.std.specs.Prelude.{◌≡◌, length};
ghost use Rattle.rules.specs.Reasons.{number_for};
ghost use Rattle.lines.specs.Ensures.{Listable};
ghost use Rattle.lines.specs.Verdict.{refused_by, VerdictIs};

use crate::{Pick, is_base, list_amounts};
use rules::{Cents, Currency, Outcome, Refusal, Total};

// What the rows come to, and the amounts of the lines. Where there is no price all amounts are zeros.
#[derive(Drop)]
pub struct Verdict {
    pub outcome: Outcome,
    pub amounts: [Cents; 99],
}

fn refused(refusal: Refusal) -> Verdict
    ensures { result ≡ refused_by (number_for refusal) }
{
    Verdict {
        outcome: Outcome {
            unit: Cents(0),
            refusal: u8::from(refusal),
            currency: Currency(0, 0, 0),
        },
        amounts: [Cents(0); 99],
    }
}

// Base lines come first, so that there is one if the first is. One walk over the rows finds whether they are in one currency, and their amounts.
pub fn judge(picks: &[Pick]) -> Verdict
    requires { Listable picks.now (length picks.now) }
    ensures { VerdictIs picks.now (length picks.now) result }
{
    let Some(first) = picks.first() else {
        return refused(Refusal::NoBaseLine);
    };
    if !is_base(first.level) {
        return refused(Refusal::NoBaseLine);
    }
    let currency = first.currency;
    let listed = list_amounts(picks, currency);
    if !listed.one {
        return refused(Refusal::MixedCurrencies);
    }
    let Total::InRange(unit) = listed.total else {
        return refused(Refusal::TotalOutOfRange);
    };
    let amounts = listed.amounts;
    Verdict {
        outcome: Outcome {
            unit,
            refusal: 0,
            currency,
        },
        amounts,
    }
}
