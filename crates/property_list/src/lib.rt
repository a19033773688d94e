// The list of properties that is lent beside a question: which bytes are one, and where the value of a name stands in it.
#![tactic(auto)]

pub mod names;
pub mod positions;
pub mod slots;

ghost use Rattle.std.specs.Prelude.{◌≤◌, ◌<◌, ◌≡◌, length};
ghost use Rattle.rules.specs.Lists.{is_some};
ghost use Rattle.layout.specs.Ends.{EndOrNone};
ghost use Rattle.relation_rules.specs.Truth.{properties_of};
ghost use Rattle.property_list.specs.Listed.{ValueEnds, HeldEnds};

use layout::names::name_end;
use layout::numbers::wide;

// Where a value of this kind at `at` ends, if one stands there: nothing, a string behind its length byte, a number of eight bytes.
fn value_end(s: &[u8], at: usize, kind: u8) -> Option<usize>
    requires at_nonzero { 0 < at }
    requires at_in_bounds { at ≤ length s.now }
    ensures { EndOrNone (ValueEnds kind s.now at) result }
{
    if kind == 0 {
        return Some(at);
    }
    if kind == 1 {
        return name_end(s, at, 0, 255);
    }
    if s.len() - at < 8 {
        return None;
    }
    Some(at + 8)
}

// Where the property at `at` ends, if one stands there.
fn held_end(s: &[u8], at: usize) -> Option<usize>
    requires { at ≤ length s.now }
    ensures { EndOrNone (HeldEnds s.now at) result }
{
    let stop = name_end(s, at, 0, 255)?;
    if s.len() <= stop {
        return None;
    }
    let kind = s[stop];
    if 2 < kind {
        return None;
    }
    value_end(s, stop + 1, kind)
}

// At most 64 properties behind their count, and nothing behind them.
pub fn properties_ok(p: &[u8]) -> bool
    ensures { result ≡ is_some (properties_of p.now) }
{
    if p.len() < 1 {
        return false;
    }
    let n = wide(p[0]);
    if 64 < n {
        return false;
    }
    let mut end = 1;
    for _ in 0..n {
        let Some(next) = held_end(p, end) else {
            return false;
        };
        end = next;
    }
    end == p.len()
}
