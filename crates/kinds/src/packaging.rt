// The body of a packaging record behind its kind: two names, a presence byte, eight values, three units.
ghost use Rattle.std.specs.Prelude.{◌+◌, ◌/◌, ◌%◌, ◌≤◌, ◌<◌, cond, [], ◌∷◌, eqb, length, take, drop, get_or};
ghost use Rattle.rules.specs.Lists.{same};
ghost use Rattle.rules.specs.Layout.{whole};
ghost use Rattle.rules.specs.BookLayout.{packaging_body};
ghost use Rattle.layout.specs.Ensures.{Accepts, Number, Says};
ghost use Rattle.pairs.specs.Pairs.{Named};
ghost use Rattle.kinds.specs.Fields.{signed_at};
ghost use Rattle.kinds.specs.Ensures.{Letters, present_ok, values_ok, unit_ok, units_ok};

use crate::bodies::is_one_byte;
use layout::numbers::{four_at, near_zero, wide};

// Whether the presence byte has the bit, a power of two.
fn is_present(present: u8, bit: u8) -> bool
    requires { 0 < bit }
    ensures { Says (eqb (present / bit % 2) 1) result }
{
    present / bit % 2 == 1
}

// How far from zero a value may lie: not at all where it is not present.
fn bound_of(present: u8, bit: u8, most: usize) -> usize
    requires { (0 < bit) × (most < 2147483648) }
    ensures { Number (cond (eqb (present / bit % 2) 1) most 0) 2147483648 result }
{
    if is_present(present, bit) { most } else { 0 }
}

fn value_ok(s: &[u8], at: usize, present: u8, bit: u8, most: usize) -> bool
    requires { (at + 4 ≤ length s.now) × ((0 < bit) × (most < 2147483648)) }
    ensures { Says (present_ok (eqb (present / bit % 2) 1) most (signed_at s.now at)) result }
{
    let bound = bound_of(present, bit, most);
    near_zero(four_at(s, at), bound)
}

// Whether the values behind the presence byte at p are in their bounds, six measures, items in a pack, packs, and 0 unless they are present.
// Each is read once for both: read twice, its four bytes would be loaded one by one.
fn values_ok(s: &[u8], p: usize) -> bool
    requires { p + 33 ≤ length s.now }
    ensures { Says (values_ok s.now p) result }
{
    let present = s[p];
    value_ok(s, p + 1, present, 1, 10_000_000)
        & value_ok(s, p + 5, present, 2, 10_000_000)
        & value_ok(s, p + 9, present, 4, 10_000_000)
        & value_ok(s, p + 13, present, 8, 10_000_000)
        & value_ok(s, p + 17, present, 16, 10_000_000)
        & value_ok(s, p + 21, present, 32, 10_000_000)
        & value_ok(s, p + 25, present, 64, 10_000)
        & value_ok(s, p + 29, present, 128, 10_000)
}

// Three letters as one number: units are compared as numbers, not byte by byte.
fn letters(x: u8, y: u8, z: u8) -> usize
    ensures { Letters x y z result }
{
    wide(x) * 65536 + wide(y) * 256 + wide(z)
}

fn is_unit(s: &[u8], at: usize, unit: &[u8; 3]) -> bool
    requires { at + 3 ≤ length s.now }
    ensures { Says (same (take 3 (drop at s.now)) unit.now) result }
{
    letters(s[at], s[at + 1], s[at + 2]) == letters(unit[0], unit[1], unit[2])
}

const LENGTH_UNITS: [[u8; 3]; 5] = [*b"CMT", *b"FOT", *b"INH", *b"MMT", *b"MTR"];

const VOLUME_UNITS: [[u8; 3]; 3] = [*b"INQ", *b"LTR", *b"MTQ"];

const WEIGHT_UNITS: [[u8; 3]; 3] = [*b"KGM", *b"LBR", *b"MGM"];

// One of the units, or none where no value needs one.
fn unit_ok(s: &[u8], at: usize, units: &[[u8; 3]], needed: bool) -> bool
    requires { at + 3 ≤ length s.now }
    ensures { Says (unit_ok needed units.now (take 3 (drop at s.now))) result }
{
    let one_of_them = units
        .iter()
        .fold(false, |found, unit| found | is_unit(s, at, unit));
    one_of_them | (is_unit(s, at, &[0, 0, 0]) & !needed)
}

// Whether the units behind the presence byte at p and its values go with the byte.
fn units_ok(s: &[u8], p: usize) -> bool
    requires { p + 42 ≤ length s.now }
    ensures { Says (units_ok s.now p (get_or s.now p 0)) result }
{
    let present = s[p];
    let of_length = is_present(present, 1) | (is_present(present, 2) | is_present(present, 4));
    let of_volume = is_present(present, 8);
    let of_weight = is_present(present, 16) | is_present(present, 32);
    unit_ok(s, p + 33, &LENGTH_UNITS, of_length)
        & unit_ok(s, p + 36, &VOLUME_UNITS, of_volume)
        & unit_ok(s, p + 39, &WEIGHT_UNITS, of_weight)
}

pub fn packaging_ok(s: &[u8], presence: usize) -> bool
    requires { Named s.now 1 presence }
    ensures { Accepts (whole packaging_body (drop 1 s.now)) result }
{
    if s.len() - presence != 42 {
        return false;
    }
    let condition = 2 + wide(s[1]);
    let for_any_article = is_one_byte(&s[2..condition], b'*');
    let unconditioned = condition + 1 == presence;
    values_ok(s, presence) & units_ok(s, presence) & !(for_any_article & unconditioned)
}
