// Price records: the row by value, and whether a record is a row of an article.
ghost use Rattle.std.specs.Prelude.{◌+◌, ◌≤◌, [], ◌∷◌, length};
ghost use Rattle.rules.specs.Layout.{whole};
ghost use Rattle.rules.specs.Book.{PriceRecord, base, surcharge, discount};
ghost use Rattle.rules.specs.BookLayout.{kinded};
ghost use Rattle.layout.specs.Ensures.{Says};
ghost use Rattle.kinds.specs.Fields.{row_at};
ghost use Rattle.records.specs.Asks.{Accepted, OfKind, TwoNames, OneOf};
ghost use Rattle.records.specs.Tests.{is_row};
ghost use Rattle.records.specs.Ensures.{LevelIs, RuleIs, ValueIs, RowIs};

use crate::fields::{half, name_stop, starts_with, word};
use crate::kind::Kind;
use layout::numbers::signed_four_at;
use rules::{Cents, Currency, Hundredths, Level, Part, PriceRow, Rule, Value};

fn level_of(letter: u8) -> Level
    requires { OneOf (base ∷ surcharge ∷ discount ∷ []) letter }
    ensures { LevelIs letter result }
{
    match letter {
        b'B' => Level::Base,
        b'X' => Level::Surcharge,
        _ => Level::Discount,
    }
}

fn rule_of(number: u8) -> Rule
    requires { OneOf (1 ∷ 2 ∷ []) number }
    ensures { RuleIs number result }
{
    match number {
        1 => Rule::OfBase,
        _ => Rule::OfTotal,
    }
}

// The value behind the names of a price: a flag, and four bytes with a sign.
fn value_at(t: &[u8], terms: usize) -> Value
    requires { terms + 12 ≤ length t.now }
    ensures { ValueIs t.now terms result }
{
    let v = signed_four_at(t, terms + 8);
    if t[terms + 7] == 0 {
        Value::Percent(Hundredths(v))
    } else {
        Value::Fixed(Cents(v))
    }
}

// The row whose article's number ends at `condition`, and whose condition ends at `terms`.
fn row_from(t: &[u8], condition: usize, terms: usize) -> PriceRow
    requires { TwoNames t.now condition terms 29 (PriceRecord (row_at t.now 1 condition terms)) }
    ensures { RowIs t.now result }
{
    let article = Part {
        at: 2,
        size: condition - 2,
    };
    let named = Part {
        at: condition + 1,
        size: terms - (condition + 1),
    };
    let level = level_of(t[terms + 1]);
    let rule = rule_of(t[terms + 2]);
    let value = value_at(t, terms);
    let currency = Currency(t[terms + 12], t[terms + 13], t[terms + 14]);
    PriceRow {
        article,
        condition: named,
        sort: t[terms],
        level,
        rule,
        text: word(t, terms + 3),
        value,
        currency,
        from: word(t, terms + 15),
        to: word(t, terms + 19),
        upto: word(t, terms + 23),
        rounding: half(t, terms + 27),
    }
}

// The row that the price record t is.
pub fn row_of(t: &[u8]) -> PriceRow
    requires { OfKind 2 t.now }
    ensures { RowIs t.now result }
{
    let condition = name_stop(t, 1);
    let terms = name_stop(t, condition);
    row_from(t, condition, terms)
}

// Whether t is a price record of the article and sort. Of its terms the byte of the sort alone is read.
pub fn is_row(t: &[u8], number: &[u8], sort: u8) -> bool
    requires { Accepted t.now }
    ensures { Says (is_row number.now sort (whole kinded t.now)) result }
{
    if !starts_with(t, Kind::Price as u8, number) {
        return false;
    }
    let condition = name_stop(t, 1);
    let terms = name_stop(t, condition);
    t[terms] == sort
}
