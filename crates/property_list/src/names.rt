// Names compared, small letters as capitals.
ghost use Rattle.std.specs.Prelude.{map, eqb};
ghost use Rattle.rules.specs.Lists.{same};
ghost use Rattle.rules.specs.Bytes.{raise};
ghost use Rattle.layout.specs.Ensures.{Says};

use layout::names::raise_byte;

fn same_letter(x: u8, y: u8) -> bool
    ensures { Says (eqb (raise x) (raise y)) result }
{
    raise_byte(x) == raise_byte(y)
}

// The lengths first, then byte by byte: most names of a list differ in one of the first.
pub fn same_raised(a: &[u8], b: &[u8]) -> bool
    ensures { Says (same (map raise a.now) (map raise b.now)) result }
{
    if a.len() != b.len() {
        return false;
    }
    a.iter().zip(b).all(|(x, y)| same_letter(*x, *y))
}
