// Whole numbers below zero too: the quotient that is rounded down. The laws of signed arithmetic are in proofs/.
#![tactic(auto)]

ghost use Rattle.std.specs.Prelude.{◌≡◌, ◌<◌};
ghost use Rattle.integers.specs.Floor.{floor};

// The quotient of n by d, rounded down.
pub fn floor_div(n: i64, d: u64) -> i64
    requires { 0 < d }
    ensures { result ≡ floor n d }
{
    if n >= 0 {
        ((n as u64) / d) as i64
    } else {
        -1 - (((-1 - n) as u64 / d) as i64)
    }
}
