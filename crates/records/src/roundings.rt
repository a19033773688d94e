// Rounding records: the rounding by value, its number alone, and whether a record is one.
ghost use Rattle.rules.specs.Layout.{whole};
ghost use Rattle.rules.specs.BookLayout.{kinded};
ghost use Rattle.layout.specs.Ensures.{Says};
ghost use Rattle.records.specs.Asks.{Accepted, OfKind};
ghost use Rattle.records.specs.Tests.{is_rounding};
ghost use Rattle.records.specs.Ensures.{WayIs, RoundingIs, NumberIs};

use crate::fields::{half, word};
use crate::kind::Kind;
use layout::numbers::signed_four_at;
use rules::{Cents, Rounding, Way};

fn way_of(b: u8) -> Way
    ensures { WayIs b result }
{
    match b {
        0 => Way::Down,
        1 => Way::Up,
        _ => Way::Commercial,
    }
}

// The rounding that the rounding record t is.
pub fn rounding_of(t: &[u8]) -> Rounding
    requires { OfKind 3 t.now }
    ensures { RoundingIs t.now result }
{
    let way = way_of(t[3]);
    let before = Cents(signed_four_at(t, 8));
    let after = Cents(signed_four_at(t, 12));
    Rounding {
        number: half(t, 1),
        way,
        step: word(t, 4),
        before,
        after,
    }
}

// The number of t, where it is a rounding.
pub fn rounding_number(t: &[u8]) -> Option<u16>
    requires { Accepted t.now }
    ensures { NumberIs (whole kinded t.now) result }
{
    if is_rounding(t) {
        return Some(half(t, 1));
    }
    None
}

// Whether t is a rounding, of whatever number: by its kind byte alone.
pub fn is_rounding(t: &[u8]) -> bool
    requires { Accepted t.now }
    ensures { Says (is_rounding (whole kinded t.now)) result }
{
    t[0] == u8::from(Kind::Rounding)
}
