// From chosen rows to the lines of a price: is there a base line, is there one currency, each line's amount and the total, and the bytes of the lines.
// The rows come by value, in the order of their lines; no book and no question is read here.
#![tactic(auto)]

pub mod verdict;

ghost use Rattle.std.specs.Prelude.{◌+◌, ◌≤◌, [], ◌∷◌, eqb, length};
ghost use Rattle.rules.specs.Book.{letter_of, rule_number};
ghost use Rattle.rules.specs.Question.{letters_of};
ghost use Rattle.rules.specs.Lines.{line_size};
ghost use Rattle.layout.specs.Ensures.{Says, Number, Puts, PutsTo};
ghost use Rattle.lines.specs.Views.{view_in, views_in, base_level, fits, one_currency, amounts_in, view_bytes, views_bytes};
ghost use Rattle.lines.specs.Ensures.{OneOfTwo, LineOn, LineAmount, Listable, ListedIn, Writable};

use layout::numbers::{put_four, put_signed_eight, put_two};
use rules::{Cents, Currency, LINE_SIZE, Level, Rounding, Rule, Total, Value};

// A chosen row, the rounding that its record names, and its factor: all that its line needs. Place 0: no granted name brought it. The fields stand so that few
// bytes between them are left out.
#[derive(Clone, Copy)]
pub struct Pick {
    pub rounding: Rounding,
    pub value: Value,
    pub text: u32,
    pub factor: u16,
    pub place: u8,
    pub level: Level,
    pub rule: Rule,
    pub currency: Currency,
}

// The amounts of the lines and what they come to, with zeros behind them, and whether the rows are in one currency. Where the total left its
// range all amounts are zeros.
#[derive(Drop)]
struct Listed {
    amounts: [Cents; 99],
    total: Total,
    one: bool,
}

// ---- base and currency

fn is_base(level: Level) -> bool
    ensures { Says (base_level level) result }
{
    level == Level::Base
}

// A percentage is in every currency.
fn is_in(pick: Pick, c: Currency) -> bool
    ensures { Says (fits (letters_of c) (view_in pick)) result }
{
    match pick.value {
        Value::Fixed(_) => pick.currency == c,
        Value::Percent(_) => true,
    }
}

// Whether each of the rows is in the currency c.
fn in_one_currency(picks: &[Pick], c: Currency) -> bool
    ensures { Says (one_currency (letters_of c) (views_in picks.now (length picks.now))) result }
{
    let mut ok = true;
    for pick in picks {
        ok &= is_in(*pick, c);
    }
    ok
}

// ---- amounts

// The first of two amounts where the test holds, else the second.
fn either(test: bool, first: Cents, second: Cents) -> Cents
    ensures { OneOfTwo test first.0 second.0 result.0 }
{
    if test { first } else { second }
}

// What a percentage is of.
fn share_of(rule: Rule, base: Cents, total: Cents) -> Cents
    ensures { OneOfTwo (eqb (rule_number rule) 1) base.0 total.0 result.0 }
{
    match rule {
        Rule::OfBase => base,
        Rule::OfTotal => total,
    }
}

// The amount of a line behind others: `base` is what the base lines among them come to, and `total` all of them. The factor is on the exact
// amount, before anything is added or rounded.
fn amount_of(pick: Pick, base: Cents, total: Cents) -> Cents
    requires { LineOn (view_in pick) base.0 total.0 }
    ensures { LineAmount (view_in pick) base.0 total.0 result }
{
    let of = share_of(pick.rule, base, total);
    let exact = amounts::exact(pick.value, of);
    let factored = amounts::factored(pick.factor, exact);
    amounts::rounding::rounded(pick.rounding, factored)
}

// The amounts of the rows' lines, and whether all rows are in the currency c. Base lines come first, so what they come to is the total
// behind the last of them. The total is tested behind each line: one that has left its range is not brought back by a later line.
fn list_amounts(picks: &[Pick], c: Currency) -> Listed
    requires { Listable picks.now (length picks.now) }
    ensures { ListedIn (letters_of c) picks.now (length picks.now) result }
{
    let mut listed = [Cents(0); 99];
    let mut one = true;
    let mut base = Cents(0);
    let mut total = Cents(0);
    for (i, pick) in picks.iter().enumerate() {
        let amount = amount_of(*pick, base, total);
        let Total::InRange(after) = amounts::add_line(total, amount) else {
            return Listed {
                amounts: [Cents(0); 99],
                total: Total::OutOfRange,
                one: in_one_currency(picks, c),
            };
        };
        base = either(is_base(pick.level), after, base);
        total = after;
        listed[i] = amount;
        one &= is_in(*pick, c);
    }
    Listed {
        amounts: listed,
        total: Total::InRange(total),
        one,
    }
}

// ---- bytes

fn put_pair(out: &mut [u8], at: usize, first: u8, second: u8)
    requires { at + 2 ≤ length out.old }
    ensures { Puts out.old at (first ∷ second ∷ []) out.new }
{
    out[at] = first;
    out[at + 1] = second;
}

fn letter_of(level: Level) -> u8
    ensures { Number (letter_of level) 256 result }
{
    match level {
        Level::Base => b'B',
        Level::Surcharge => b'X',
        Level::Discount => b'D',
    }
}

// The 16 bytes of a line: the text's number, the level's letter, the place of the granted name, the amount, the factor.
fn write_line(out: &mut [u8], at: usize, pick: Pick, amount: Cents)
    requires { at + line_size ≤ length out.old }
    ensures { Puts out.old at (view_bytes (view_in pick) amount.0) out.new }
{
    put_four(out, at, pick.text);
    put_pair(out, at + 4, letter_of(pick.level), pick.place);
    put_signed_eight(out, at + 6, amount.0);
    put_two(out, at + 14, pick.factor);
}

// The lines, one behind the other, from `at` on, and where they end.
pub fn write_lines(out: &mut [u8], at: usize, picks: &[Pick], amounts: &[Cents; 99]) -> usize
    requires { Writable out.old at amounts.now (length picks.now) }
    ensures { PutsTo out.old at (views_bytes (views_in picks.now (length picks.now)) (amounts_in amounts.now (length picks.now))) out.new result }
{
    for (i, pick) in picks.iter().enumerate() {
        write_line(out, at + LINE_SIZE * i, *pick, amounts[i]);
    }
    at + LINE_SIZE * picks.len()
}
