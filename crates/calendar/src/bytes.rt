// Stretches in bytes, 20 each.
ghost use Rattle.std.specs.Prelude.{◌+◌, ◌*◌, ◌≤◌, [], ◌∷◌, map, length};
ghost use Rattle.rules.specs.Bytes.{signed_bytes_of};
ghost use Rattle.rules.specs.Calendar.{stretch_bytes, stretches_bytes};
ghost use Rattle.layout.specs.Ensures.{Puts};
ghost use Rattle.stretches.specs.Stretches.{as_stretch};

use layout::numbers::{put_four, put_signed_eight};
use rules::{Cents, Currency};
use stretches::Stretch;

fn put_currency(out: &mut [u8], at: usize, refusal: u8, currency: Currency)
    requires { at + 4 ≤ length out.old }
    ensures { Puts out.old at (refusal ∷ currency.0 ∷ currency.1 ∷ currency.2 ∷ []) out.new }
{
    out[at] = refusal;
    out[at + 1] = currency.0;
    out[at + 2] = currency.1;
    out[at + 3] = currency.2;
}

fn put_unit(out: &mut [u8], at: usize, unit: Cents)
    requires { at + 8 ≤ length out.old }
    ensures { Puts out.old at (signed_bytes_of 8 unit.0) out.new }
{
    put_signed_eight(out, at, unit.0);
}

// First day, last day, refusal and currency, unit total.
fn write_stretch(out: &mut [u8], at: usize, stretch: Stretch)
    requires { at + 20 ≤ length out.old }
    ensures { Puts out.old at (stretch_bytes (as_stretch stretch)) out.new }
{
    let outcome = stretch.outcome;
    put_four(out, at, stretch.first.0);
    put_four(out, at + 4, stretch.last.0);
    put_currency(out, at + 8, outcome.refusal, outcome.currency);
    put_unit(out, at + 12, outcome.unit);
}

// One behind the other, to the front of `out`.
pub fn write_stretches(out: &mut [u8], stretches: &[Stretch])
    requires { 20 * length stretches.now ≤ length out.old }
    ensures { Puts out.old 0 (stretches_bytes (map as_stretch stretches.now)) out.new }
{
    for (i, stretch) in stretches.iter().enumerate() {
        write_stretch(out, 20 * i, *stretch);
    }
}
