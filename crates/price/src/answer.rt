// What a caller reads of a price.
ghost use Rattle.std.specs.Prelude.{◌≤◌, ◌≡◌, nat_abs};
ghost use Rattle.rules.specs.Lines.{most_total};
ghost use Rattle.rules.specs.Refusals.{refused};
ghost use Rattle.rules.specs.Price.{shown};
ghost use Rattle.price.specs.Call.{answer_with};

use grants::places::Places;
use rules::{Outcome, PriceAnswer};

// Zeros beside the number of a refusal.
pub fn refusal(number: u8) -> PriceAnswer
    ensures { result ≡ shown (refused number) }
{
    PriceAnswer {
        unit: 0,
        total: 0,
        lines: 0,
        unused: 0,
        unused_count: 0,
        number,
        currency: [0, 0, 0],
    }
}

// The price of so many pieces, with n lines and the granted places that brought none.
pub fn answer(quantity: u32, n: usize, outcome: Outcome, idle: Places) -> PriceAnswer
    requires quantity_bound { quantity ≤ 100_000 }
    requires unit_bound { nat_abs outcome.unit.0 ≤ most_total }
    ensures { result ≡ answer_with quantity n outcome idle.0 }
{
    let currency = outcome.currency;
    let unit = outcome.unit.0;
    let count = idle.count();
    PriceAnswer {
        unit,
        total: quantity as i64 * unit,
        lines: n as u64,
        unused: idle.0,
        unused_count: count as u8,
        number: 0,
        currency: [currency.0, currency.1, currency.2],
    }
}
