// What the bytes of a field mean: a quantity, a date, an amount, one letter of a few, a currency. `None` where they are no such thing.
#![tactic(auto)]

ghost use Rattle.std.specs.Prelude.{◌≤◌, false, length, MatchOption};
ghost use Rattle.file_rules.specs.Decimals.{cents_of, cents_in, date_in, quantity_in, value_in};
ghost use Rattle.file_rules.specs.Fields.{starts_with};
ghost use Rattle.file_rules.specs.PriceLine.{is_currency, letter_in};
ghost use Rattle.layout.specs.Ensures.{Says};
ghost use Rattle.layout.specs.Reads.{part};
ghost use Rattle.fields.specs.Given.{Agrees, GivesNone};
ghost use Rattle.figures.specs.Figures.{one_digit, up_to, tens_in, zeros_behind, OneByte, PointAt, most_cents, behind, near, AmountIs, CapitalsAre};

use fields::field::cut_at;
use layout::numbers::is_capital;
use rules::Currency;

// No price has more hundredths.
const MOST_CENTS: u32 = 100_000_000;

// Hundredths, and whether a minus stands before them.
#[derive(Clone, Copy, PartialEq, Eq)]
pub struct Amount {
    pub hundredths: u32,
    pub minus: bool,
}

// ---- digits

// One digit more behind those of n; none, where it is no digit, or the number goes above the greatest.
fn add_digit(n: u32, byte: u8, most: u32) -> Option<u32>
    ensures { Agrees (one_digit most n byte) result }
{
    if byte < b'0' {
        return None;
    }
    if b'9' < byte {
        return None;
    }
    let m = n as u64 * 10 + (byte - b'0') as u64;
    if m <= most as u64 {
        return Some(m as u32);
    }
    None
}

// The number that the digits make, if it is not above the greatest.
fn digits_to(s: &[u8], most: u32) -> Option<u32>
    ensures { Agrees (up_to most (tens_in 0 s.now)) result }
{
    let mut n = 0;
    for byte in s {
        n = add_digit(n, *byte, most)?;
    }
    Some(n)
}

pub fn quantity_in(s: &[u8]) -> Option<u32>
    ensures { Agrees (quantity_in s.now) result }
{
    if s.is_empty() {
        return None;
    }
    digits_to(s, 4294967295)
}

// 0 where the bytes are blank.
pub fn date_in(s: &[u8]) -> Option<u32>
    ensures { Agrees (date_in s.now) result }
{
    match s.len() {
        0 => Some(0),
        8 => digits_to(s, 99999999),
        _ => None,
    }
}

// ---- amounts

// The byte at k; where none is left, the digit 0.
fn decimal_at(s: &[u8], k: usize) -> u8
    ensures { OneByte s.now k result }
{
    if k < s.len() { s[k] } else { b'0' }
}

// Whether nothing but 0 stands behind the second decimal.
fn zeros_behind(s: &[u8]) -> bool
    ensures { Says (zeros_behind s.now) result }
{
    s.iter().skip(2).all(|b| *b == b'0')
}

// Behind the point at p, if there is one.
fn behind_point(s: &[u8], p: usize) -> usize
    requires { p ≤ length s.now }
    ensures { PointAt s.now p result }
{
    if p < s.len() { p + 1 } else { p }
}

// Hundredths, of which the whole ones stand up to p and the decimals from d on, if they are not more than any price has.
fn cents_from(s: &[u8], p: usize, d: usize) -> Option<u32>
    requires p_in_bounds { p ≤ length s.now }
    requires d_in_bounds { d ≤ length s.now }
    ensures { Agrees (up_to most_cents (cents_of (part s.now 0 p) (behind s.now d))) result }
{
    let decimals = &s[d..];
    if p + decimals.len() < 1 {
        return None;
    }
    if zeros_behind(decimals) {
        let whole = digits_to(&s[0..p], MOST_CENTS)?;
        let tenths = add_digit(whole, decimal_at(decimals, 0), MOST_CENTS)?;
        return add_digit(tenths, decimal_at(decimals, 1), MOST_CENTS);
    }
    None
}

fn cents_in(s: &[u8]) -> Option<u32>
    ensures { Agrees (up_to most_cents (cents_in s.now)) result }
{
    let p = cut_at(s, 0, b'.');
    let d = behind_point(s, p);
    cents_from(s, p, d)
}

fn is_negative(s: &[u8]) -> bool
    ensures { Says (starts_with 45 s.now) result }
{
    s.starts_with(b"-")
}

// The amount, where it is not more than any price has.
pub fn amount_in(s: &[u8]) -> Option<Amount>
    ensures { MatchOption result (GivesNone (near (value_in s.now))) (AmountIs s.now) }
{
    let minus = is_negative(s);
    let hundredths = cents_in(&s[usize::from(minus)..])?;
    Some(Amount { hundredths, minus })
}

// ---- letters

// One letter, of a few.
pub fn one_of(s: &[u8], letters: &[u8]) -> Option<u8>
    ensures { Agrees (letter_in letters.now s.now) result }
{
    let [letter] = s else {
        return None;
    };
    if letters.contains(letter) {
        return Some(*letter);
    }
    None
}

pub fn currency_in(s: &[u8]) -> Option<Currency>
    ensures { MatchOption result (Says (is_currency s.now) false) (CapitalsAre s.now) }
{
    let [a, b, c] = s else {
        return None;
    };
    if is_capital(*a) & is_capital(*b) & is_capital(*c) {
        return Some(Currency(*a, *b, *c));
    }
    None
}
