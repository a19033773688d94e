// Numbers in plain decimal.
ghost use Rattle.std.specs.Prelude.{◌+◌, ◌≤◌, ◌<◌, ◌≡◌, length, nat_abs};
ghost use Rattle.rules.specs.Program.{digits, signed_decimal};
ghost use Rattle.layout.specs.Ensures.{PutsTo};
ghost use Rattle.printing.specs.Ensures.{sign_of};

// A number of at most k digits, from `at` on. The digits in front come first, by the same function.
pub fn put_digits(out: &mut [u8], at: usize, k: usize, n: u64) -> usize
    requires { at + k ≤ length out.old }
    ensures { PutsTo out.old at (digits k n) out.new result }
{
    if k == 0 {
        return at;
    }
    if n < 10 {
        out[at] = b'0' + n as u8;
        return at + 1;
    }
    let end = put_digits(out, at, k - 1, n / 10);
    out[end] = b'0' + (n % 10) as u8;
    end + 1
}

// A sign, where the number is below zero.
fn put_sign(out: &mut [u8], at: usize, z: i64) -> usize
    requires { at < length out.old }
    ensures { PutsTo out.old at (sign_of z) out.new result }
{
    if 0 <= z {
        return at;
    }
    out[at] = b'-';
    at + 1
}

pub fn put_signed(out: &mut [u8], at: usize, z: i64) -> usize
    requires { at + 21 ≤ length out.old }
    ensures { PutsTo out.old at (signed_decimal z) out.new result }
{
    let start = put_sign(out, at, z);
    put_digits(out, start, 20, z.unsigned_abs())
}
