// The order of two strings, byte by byte, raised or as they stand.
ghost use Rattle.layout.specs.Ensures.{Number};
ghost use Rattle.relation_rules.specs.Truth.{text_order, spoken};
ghost use Rattle.relation_truth.specs.Told.{OrderIs};
ghost use Rattle.relation_truth.specs.Values.{spoken_byte};

use layout::names::raise_byte;
use std::cmp::Ordering;

fn spoken_byte(b: u8, raised: bool) -> u8
    ensures { Number (spoken_byte raised b) 256 result }
{
    if raised { raise_byte(b) } else { b }
}

// Of two that begin alike the shorter is the smaller.
pub fn text_order(a: &[u8], b: &[u8], raised: bool) -> Ordering
    ensures { OrderIs (text_order (spoken raised a.now) (spoken raised b.now)) result }
{
    for (i, x) in a.iter().enumerate() {
        if b.len() <= i {
            return Ordering::Greater;
        }
        let order = spoken_byte(*x, raised).cmp(&spoken_byte(b[i], raised));
        if order.is_ne() {
            return order;
        }
    }
    a.len().cmp(&b.len())
}
