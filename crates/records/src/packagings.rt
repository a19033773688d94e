// Packaging records: where the names stand, the presence byte, eight values and three units.
ghost use Rattle.std.specs.Prelude.{◌+◌, ◌≤◌, length};
ghost use Rattle.rules.specs.Book.{PackagingRecord};
ghost use Rattle.kinds.specs.Fields.{pack_at};
ghost use Rattle.records.specs.Asks.{OfKind, TwoNames};
ghost use Rattle.records.specs.Ensures.{ValuesAre, UnitsAre, PackIs};

use crate::fields::name_stop;
use layout::numbers::signed_four_at;
use rules::Part;

// The values are in the order of the presence bits; the units, of three letters each, are those of length, volume and weight.
#[derive(Drop)]
pub struct Packing {
    pub article: Part,
    pub condition: Part,
    pub present: u8,
    pub values: [i64; 8],
    pub units: [u8; 9],
}

// The values behind the presence byte at p.
fn values_at(t: &[u8], p: usize) -> [i64; 8]
    requires { p + 33 ≤ length t.now }
    ensures { ValuesAre t.now p result }
{
    [
        signed_four_at(t, p + 1),
        signed_four_at(t, p + 5),
        signed_four_at(t, p + 9),
        signed_four_at(t, p + 13),
        signed_four_at(t, p + 17),
        signed_four_at(t, p + 21),
        signed_four_at(t, p + 25),
        signed_four_at(t, p + 29),
    ]
}

// The units behind the values.
fn units_at(t: &[u8], p: usize) -> [u8; 9]
    requires { p + 42 ≤ length t.now }
    ensures { UnitsAre t.now p result }
{
    let mut units = [0; 9];
    units.copy_from_slice(&t[p + 33..p + 42]);
    units
}

// The packaging whose article's number ends at `condition`, and whose condition ends at the presence byte.
fn packaging_from(t: &[u8], condition: usize, presence: usize) -> Packing
    requires { TwoNames t.now condition presence 42 (PackagingRecord (pack_at t.now 1 condition presence)) }
    ensures { PackIs t.now result }
{
    let article = Part {
        at: 2,
        size: condition - 2,
    };
    let named = Part {
        at: condition + 1,
        size: presence - (condition + 1),
    };
    let values = values_at(t, presence);
    let units = units_at(t, presence);
    Packing {
        article,
        condition: named,
        present: t[presence],
        values,
        units,
    }
}

// The packaging that the packaging record t is.
pub fn packaging_of(t: &[u8]) -> Packing
    requires { OfKind 4 t.now }
    ensures { PackIs t.now result }
{
    let condition = name_stop(t, 1);
    let presence = name_stop(t, condition);
    packaging_from(t, condition, presence)
}
