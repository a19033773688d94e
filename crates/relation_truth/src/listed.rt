// A value as the list of properties has it, behind its kind byte: 0 none, 1 a string, 2 a number of eight bytes.
ghost use Rattle.std.specs.Prelude.{◌≡◌, ◌+◌, ◌≤◌, length, take, drop, get_or};
ghost use Rattle.std.specs.Int.{w64};
ghost use Rattle.rules.specs.Bytes.{big, signed_of};
ghost use Rattle.layout.specs.Ensures.{Number};
ghost use Rattle.property_list.specs.Listed.{ValueStands, value_at};
ghost use Rattle.relation_truth.specs.Values.{ConstantIs, NumberFits};

use crate::values::Constant;
use layout::numbers::four_at;
use property_list::positions::value_stop;

fn eight_at(p: &[u8], at: usize) -> usize
    requires { at + 8 ≤ length p.now }
    ensures { Number (big (take 8 (drop at p.now))) 18446744073709551616 result }
{
    four_at(p, at) * 4294967296 + four_at(p, at + 4)
}

// The upper half of the range stands for the numbers below zero.
fn number_at(p: &[u8], at: usize) -> i64
    requires { at + 8 ≤ length p.now }
    ensures { result ≡ signed_of 8 (big (take 8 (drop at p.now))) }
{
    let n = eight_at(p, at);
    if n < 9223372036854775808 {
        n as i64
    } else {
        -1 - ((18446744073709551615 - n) as i64)
    }
}

// The value whose kind byte stands at `at`.
pub fn listed_value<'a>(p: &'a [u8], at: usize) -> Option<Constant<'a>>
    requires { ValueStands p.now at }
    ensures constant_is { ConstantIs (value_at (get_or p.now at 0) p.now (at + 1)) result }
    ensures number_fits { NumberFits w64 result }
{
    match p[at] {
        0 => None,
        1 => Some(Constant::Text(&p[at + 2..value_stop(p, at)])),
        _ => Some(Constant::Number(i128::from(number_at(p, at + 1)))),
    }
}
