// What the used packaging records come to, place after place.
ghost use Rattle.std.specs.Prelude.{IfSome};
ghost use Rattle.packed.specs.Sums.{most_before, Within};
ghost use Rattle.packaging.specs.Spots.{Held, FoundHeld, used_in};
ghost use Rattle.packaging.specs.Sums.{WithSpot, SumsFrom};

use crate::spots::Found;
use grants::NOWHERE;
use packed::sums::{NOTHING, Sums, add_fitting};
use records::{bytes_of, packaging_of};
use rules::{Part, Refusal};

// With the record at a spot, if there is one.
fn with_spot(b: &[u8], s: Sums, spot: Option<Part>) -> Result<Sums, Refusal>
    requires held { IfSome spot (Held b.now) }
    requires within { Within most_before s }
    ensures { WithSpot b.now s spot result }
{
    match spot {
        Some(part) => add_fitting(s, packaging_of(bytes_of(b, part))),
        None => Ok(s),
    }
}

// Place after place: the article's own record, or else that of any article. At 0 there is always an own one when this is called: an
// article without it is refused before.
pub fn add_up(b: &[u8], found: &Found) -> Result<Sums, Refusal>
    requires { FoundHeld b.now found.now }
    ensures { SumsFrom (used_in b.now found.now.own found.now.any) result }
{
    let mut sums = NOTHING;
    for (own, any) in found.own[..NOWHERE].iter().zip(&found.any) {
        sums = with_spot(b, sums, own.or(*any))?;
    }
    Ok(sums)
}
