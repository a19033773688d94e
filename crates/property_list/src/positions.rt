// An accepted list of properties: where the value of a name stands in it.
ghost use Rattle.std.specs.Prelude.{◌+◌, ◌<◌, ◌≡◌, length, get_or};
ghost use Rattle.layout.specs.Reads.{name_stop};
ghost use Rattle.layout.specs.Ends.{EndOrNone};
ghost use Rattle.property_list.specs.Listed.{HeldStands, ValueStands, KindIs, PositionIs, value_stop};
ghost use Rattle.property_list.specs.Slots.{SlotsOf};

use crate::names::same_raised;
use crate::slots::{SLOTS, slot_of};
use layout::numbers::wide;

// Where a name ends, by its length byte.
fn name_stop(p: &[u8], at: usize) -> usize
    requires { at < length p.now }
    ensures { result ≡ name_stop p.now at }
{
    at + 1 + wide(p[at])
}

// Where the value ends whose kind byte stands at `at`.
pub fn value_stop(p: &[u8], at: usize) -> usize
    requires { ValueStands p.now at }
    ensures { result ≡ value_stop (get_or p.now at 0) p.now (at + 1) }
{
    let kind = p[at];
    if kind == 0 {
        return at + 1;
    }
    if kind == 1 {
        return name_stop(p, at + 1);
    }
    at + 9
}

// Where the kind byte of a property's value stands, behind its name.
pub fn kind_position(p: &[u8], at: usize) -> usize
    requires { HeldStands p.now at }
    ensures { KindIs p.now at result }
{
    at + 1 + wide(p[at])
}

// The position of the kind byte of the first property that has this name, in any letters, if one has it.
pub fn position_of(p: &[u8], slots: &[usize; SLOTS], name: &[u8]) -> Option<usize>
    requires { SlotsOf p.now slots.now }
    ensures { EndOrNone (PositionIs p.now name.now) result }
{
    let slot = slot_of(name);
    let mut at = slots[slot];
    while at < p.len() {
        let from = at + 1;
        let kind = kind_position(p, at);
        if same_raised(&p[from..kind], name) {
            return Some(kind);
        }
        at = value_stop(p, kind);
    }
    None
}
