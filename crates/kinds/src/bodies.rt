// The bodies of articles, prices, roundings and schemes, each from the byte behind the kind to the end of its record. That of a rounding has no
// names; of the others each is handed the end of its first two, where the field behind them stands.
ghost use Rattle.std.specs.Prelude.{◌≤◌, ◌<◌, ◌||◌, [], ◌∷◌, eqb, length, drop};
ghost use Rattle.rules.specs.Lists.{same};
ghost use Rattle.rules.specs.Layout.{whole};
ghost use Rattle.rules.specs.Bytes.{signed_of, name_byte};
ghost use Rattle.rules.specs.BookLayout.{article_body, price_body, rounding_body, scheme_body, value_of, in_bounds, given};
ghost use Rattle.layout.specs.Ensures.{Accepts, Number, Says};
ghost use Rattle.pairs.specs.Pairs.{Named};
ghost use Rattle.kinds.specs.Ensures.{trim_ok};

use layout::names::{is_name_byte, name_end};
use layout::numbers::{four_at, is_capital, is_one_of, near_zero, two_at, wide};

pub fn article_ok(s: &[u8], end: usize) -> bool
    requires { Named s.now 1 end }
    ensures { Accepts (whole article_body (drop 1 s.now)) result }
{
    end == s.len()
}

// Whether a price's value is in its bounds: those of an amount, or those of a percentage.
fn value_ok(fixed: u8, n: usize) -> bool
    requires { n < 4294967296 }
    ensures { Says (in_bounds (value_of fixed (signed_of 4 n))) result }
{
    if fixed == 0 {
        return near_zero(n, 100_000);
    }
    near_zero(n, 100_000_000)
}

pub fn price_ok(s: &[u8], terms: usize) -> bool
    requires { Named s.now 1 terms }
    ensures { Accepts (whole price_body (drop 1 s.now)) result }
{
    if s.len() - terms != 29 {
        return false;
    }
    is_one_of(s[terms], &[b'S', b'P'])
        & is_one_of(s[terms + 1], &[b'B', b'X', b'D'])
        & is_one_of(s[terms + 2], &[1, 2])
        & is_one_of(s[terms + 7], &[0, 1])
        & value_ok(s[terms + 7], four_at(s, terms + 8))
        & is_capital(s[terms + 12])
        & is_capital(s[terms + 13])
        & is_capital(s[terms + 14])
}

pub fn rounding_ok(s: &[u8], at: usize) -> bool
    requires { at ≤ length s.now }
    ensures { Accepts (whole rounding_body (drop at s.now)) result }
{
    if s.len() - at != 15 {
        return false;
    }
    let step = four_at(s, at + 3);
    (1 <= two_at(s, at))
        & is_one_of(s[at + 2], &[0, 1, 2])
        & (1 <= step)
        & (step <= 1_000_000)
        & near_zero(four_at(s, at + 7), 1_000_000)
        & near_zero(four_at(s, at + 11), 1_000_000)
}

// The character that a scheme gives, or else the default.
pub fn given_or(default: u8, c: u8) -> u8
    ensures { Number (given default c) 256 result }
{
    if c == 0 { default } else { c }
}

// 0, where a scheme gives none, or a printable byte.
fn character_ok(c: u8) -> bool
    ensures { Says (eqb c 0 || name_byte c) result }
{
    (c == 0) | is_name_byte(c)
}

pub fn is_one_byte(s: &[u8], c: u8) -> bool
    ensures { Says (same s.now (c ∷ [])) result }
{
    if s.len() != 1 {
        return false;
    }
    s[0] == c
}

// Whether a scheme's value separator keeps trimmed values apart, where they are trimmed.
fn trim_ok(separator: &[u8], hidden: u8, unselected: u8, trim: u8) -> bool
    ensures { Says (trim_ok separator.now hidden unselected trim) result }
{
    let in_a_run = is_one_byte(separator, given_or(b'-', hidden))
        | is_one_byte(separator, given_or(b'X', unselected));
    (trim == 0) | !((separator.len() == 0) | in_a_run)
}

// The first two names of a scheme are shorter than those of the other kinds.
pub fn scheme_ok(s: &[u8], values: usize) -> bool
    requires { Named s.now 1 values }
    ensures { Accepts (whole scheme_body (drop 1 s.now)) result }
{
    let id = s[1];
    if 20 < id {
        return false;
    }
    let numbers = 2 + wide(id);
    if 8 < s[numbers] {
        return false;
    }
    let Some(choices) = name_end(s, values, 0, 8) else {
        return false;
    };
    if s.len() - choices != 4 {
        return false;
    }
    let hidden = s[choices + 1];
    let unselected = s[choices + 2];
    let trim = s[choices + 3];
    let separator = values + 1;
    is_one_of(s[choices], &[0, 1])
        & character_ok(hidden)
        & character_ok(unselected)
        & is_one_of(trim, &[0, 1])
        & trim_ok(&s[separator..choices], hidden, unselected, trim)
}
