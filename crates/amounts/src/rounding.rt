// Rounding, as the rule sheet has it (docs/RULES.md): way by way, and each way from zero up and below zero. It is about the last step, which may be only begun.
//
//     way           from zero up                     below zero
//     down          a begun step is left out         a begun step counts
//     up            a begun step counts              a begun step is left out
//     commercial    it counts from its half on       it counts from its half on
//
// What is rounded are z parts, n of them to a step. Steps are counted from zero, either way.
ghost use Rattle.std.specs.Prelude.{◌≡◌, ◌<◌};
ghost use Rattle.integers.specs.Floor.{floor};
ghost use Rattle.rules.specs.Amounts.{ceiling, nearest, steps_by};
ghost use Rattle.amounts.specs.Ensures.{InSteps, from_half_on, Roundable, RoundedCents};

use rules::{Cents, Fraction, Rounding, Way};

// ---- down

// How many steps are full.
fn full(parts: i64, n: u64) -> i64
    requires { 0 < n }
    ensures { result ≡ floor parts n }
{
    integers::floor_div(parts, n)
}

// From zero up only full steps count. Below zero the step of the last part counts as well: it is one more than are full without that part.
fn down(z: i64, n: u64) -> i64
    requires { 0 < n }
    ensures { result ≡ floor z n }
{
    if z < 0 {
        return -full(-1 - z, n) - 1;
    }
    full(z, n)
}

// ---- up

// From zero up the step of the last part counts, full or not. Below zero only full steps do.
fn up(z: i64, n: u64) -> i64
    requires { InSteps z n }
    ensures { result ≡ ceiling z n }
{
    if 0 < z {
        return full(z - 1, n) + 1;
    }
    -full(-z, n)
}

// ---- commercial

// From zero up: a step that is begun counts from its half on.
fn from_half_on(z: i64, n: u64) -> i64
    requires { InSteps z n }
    ensures { result ≡ from_half_on z n }
{
    let steps = full(z, n);
    let begun = z - steps * (n as i64);
    if begun * 2 < n as i64 {
        steps
    } else {
        steps + 1
    }
}

// Below zero the same, as far from zero as above it.
fn nearest(z: i64, n: u64) -> i64
    requires { InSteps z n }
    ensures { result ≡ nearest z n }
{
    if z < 0 {
        -from_half_on(-z, n)
    } else {
        from_half_on(z, n)
    }
}

// ---- the line of the sheet

fn steps_by(way: Way, z: i64, n: u64) -> i64
    requires { InSteps z n }
    ensures { result ≡ steps_by way z n }
{
    match way {
        Way::Down => down(z, n),
        Way::Up => up(z, n),
        Way::Commercial => nearest(z, n),
    }
}

// The cents added before go to the amount, the line of the sheet makes whole steps of it, and the cents added after go to these.
pub fn rounded(r: Rounding, x: Fraction) -> Cents
    requires { Roundable r x }
    ensures { RoundedCents r x result }
{
    let way = r.way;
    let step = r.step as u64;
    let before = r.before.0;
    let after = r.after.0;
    let bottom = x.bottom;
    let top = x.top + before * (bottom as i64);
    let steps = steps_by(way, top, bottom * step);
    Cents(steps * (step as i64) + after)
}
