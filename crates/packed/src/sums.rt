// What packaging records come to, one after the other: their presence bits together, the sum of each value, and the units that they hold to.
ghost use Rattle.rules.specs.Packaging.{is_given};
ghost use Rattle.rules.proofs.PackagingLaws.{goes_with};
ghost use Rattle.layout.specs.Ensures.{Says};
ghost use Rattle.packed.specs.Sums.{letters, AddableValues, ValuesAfter, UnitAfter, UnitsOf, UnitsAfter, units_go, Added, AddedFitting};

use records::Packing;
use rules::Refusal;

// Three letters. Three zeros stand for none, in a record, here and in the answer (the definition `no_unit`).
#[derive(Clone, Copy, PartialEq, Eq)]
pub struct UnitCode(pub u8, pub u8, pub u8);

impl UnitCode {
    pub const NONE: UnitCode = UnitCode(0, 0, 0);
}

#[derive(Clone, Copy)]
pub struct Units {
    pub length: UnitCode,
    pub volume: UnitCode,
    pub weight: UnitCode,
}

// `agree`: no record gave another unit than one before it.
#[derive(Clone, Copy)]
pub struct Sums {
    pub present: u8,
    pub values: [i64; 8],
    pub units: Units,
    pub agree: bool,
}

pub const NOTHING: Sums = Sums {
    present: 0,
    values: [0; 8],
    units: Units {
        length: UnitCode::NONE,
        volume: UnitCode::NONE,
        weight: UnitCode::NONE,
    },
    agree: true,
};

// ---- units

fn units_of(b: [u8; 9]) -> Units
    ensures { UnitsOf b result }
{
    let length = UnitCode(b[0], b[1], b[2]);
    let volume = UnitCode(b[3], b[4], b[5]);
    let weight = UnitCode(b[6], b[7], b[8]);
    Units {
        length,
        volume,
        weight,
    }
}

fn is_given(u: UnitCode) -> bool
    ensures { Says (is_given (letters u)) result }
{
    u != UnitCode::NONE
}

// The unit held once another record has come: the first that is given.
fn unit_after(held: UnitCode, new: UnitCode) -> UnitCode
    ensures { UnitAfter held new result }
{
    if is_given(held) { held } else { new }
}

// Whether the other record's unit goes with the one held.
fn goes_with(held: UnitCode, new: UnitCode) -> bool
    ensures { Says (goes_with (letters held) (letters new)) result }
{
    !is_given(new) | !is_given(held) | (new == held)
}

fn units_after(held: Units, new: Units) -> Units
    ensures { UnitsAfter held new result }
{
    let length = unit_after(held.length, new.length);
    let volume = unit_after(held.volume, new.volume);
    let weight = unit_after(held.weight, new.weight);
    Units {
        length,
        volume,
        weight,
    }
}

fn units_go(held: Units, new: Units) -> bool
    ensures { Says (units_go held new) result }
{
    goes_with(held.length, new.length)
        & goes_with(held.volume, new.volume)
        & goes_with(held.weight, new.weight)
}

// ---- one record more

fn values_after(held: [i64; 8], new: [i64; 8]) -> [i64; 8]
    requires { AddableValues held new }
    ensures { ValuesAfter held new result }
{
    let mut sums = [0i64; 8];
    for (i, sum) in sums.iter_mut().enumerate() {
        *sum = held[i] + new[i];
    }
    sums
}

// Whatever its units: `agree` says whether they went with those held.
pub fn add_pack(s: Sums, p: Packing) -> Sums
    requires { AddableValues s.values p.values }
    ensures { Added s p result }
{
    let new = units_of(p.units);
    let goes = units_go(s.units, new);
    Sums {
        present: s.present | p.present,
        values: values_after(s.values, p.values),
        units: units_after(s.units, new),
        agree: s.agree & goes,
    }
}

// A record that gives another unit than one before it is refused.
pub fn add_fitting(s: Sums, p: Packing) -> Result<Sums, Refusal>
    requires { AddableValues s.values p.values }
    ensures { AddedFitting s p result }
{
    let new = units_of(p.units);
    if !units_go(s.units, new) {
        return Err(Refusal::UnfitPackaging);
    }
    Ok(Sums {
        present: s.present | p.present,
        values: values_after(s.values, p.values),
        units: units_after(s.units, new),
        agree: s.agree,
    })
}
