// Amounts of money: the exact amount of a price row, its rounding to cents, and the running total of the lines.
#![tactic(auto)]

pub mod rounding;

ghost use Rattle.std.specs.Prelude.{◌≡◌};
ghost use Rattle.amounts.specs.Ensures.{BookValue, ExactAmount, Factorable, FactoredAmount, Addable, total_after};

use rules::{Cents, Fraction, LEAST_TOTAL, MOST_TOTAL, PLAIN_FACTOR, Total, Value};

// ---- the exact amount

// What a row comes to: its amount, or its share of some cents. Hundredths of a percent of a cent are ten-thousandths of it, so nothing is lost.
pub fn exact(value: Value, of: Cents) -> Fraction
    requires { BookValue value of.0 }
    ensures { ExactAmount value of.0 result }
{
    match value {
        Value::Fixed(cents) => Fraction {
            top: cents.0,
            bottom: 1,
        },
        Value::Percent(share) => Fraction {
            top: share.0 * of.0,
            bottom: 10_000,
        },
    }
}

// So many thousandths of it. A thousand of them are the amount as it is, and it is rounded alike.
pub fn factored(factor: u16, x: Fraction) -> Fraction
    requires { Factorable factor x }
    ensures { FactoredAmount factor x result }
{
    if factor == PLAIN_FACTOR {
        return x;
    }
    Fraction {
        top: x.top * (factor as i64),
        bottom: x.bottom * 1_000,
    }
}

// ---- the running total

// The total after one more line. Its type is that of the definition `total_of`, by which the promises about a total are stated, and stays with it.
pub fn add_line(total: Cents, amount: Cents) -> Total
    requires { Addable total.0 amount.0 }
    ensures { result ≡ total_after total.0 amount.0 }
{
    let before = total.0;
    let after = before + amount.0;
    if (after >= LEAST_TOTAL) & (after <= MOST_TOTAL) {
        Total::InRange(Cents(after))
    } else {
        Total::OutOfRange
    }
}
