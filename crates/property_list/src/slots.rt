// The slots of a list of properties, made once: names of one length that begin and end alike share a slot, and a slot has the position of the
// first property in it. So a name is looked for from there on.
ghost use Rattle.std.specs.Prelude.{◌≡◌, true};
ghost use Rattle.rules.specs.Lists.{is_some};
ghost use Rattle.layout.specs.Ensures.{Number};
ghost use Rattle.relation_rules.specs.Truth.{properties_of};
ghost use Rattle.property_list.specs.Slots.{slot_of, SlotsOf};

use crate::positions::{kind_position, value_stop};
use layout::names::raise_byte;
use layout::numbers::wide;

pub const SLOTS: usize = 128;

// The slot of a name, in any letters.
pub fn slot_of(name: &[u8]) -> usize
    ensures { Number (slot_of name.now) 128 result }
{
    let size = name.len();
    if size < 1 {
        return 0;
    }
    let first = wide(raise_byte(name[0]));
    let last = wide(raise_byte(name[size - 1]));
    (size + 11 * first + 41 * last) % SLOTS
}

// An empty slot has the end of the list.
pub fn slots_of(p: &[u8]) -> [usize; SLOTS]
    requires { is_some (properties_of p.now) ≡ true }
    ensures { SlotsOf p.now result }
{
    let mut slots = [p.len(); SLOTS];
    let mut at = 1;
    while at < p.len() {
        let from = at + 1;
        let kind = kind_position(p, at);
        let slot = slot_of(&p[from..kind]);
        slots[slot] = slots[slot].min(at);
        at = value_stop(p, kind);
    }
    slots
}
