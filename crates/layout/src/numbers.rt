// Numbers in bytes, the highest byte first: read and written at a position, and tests of a byte.
ghost use Rattle.std.specs.Prelude.{◌+◌, ◌/◌, ◌<◌, ◌≤◌, [], ◌∷◌, eqb, length, take, drop};
ghost use Rattle.std.specs.Int.Signed.{mag};
ghost use Rattle.rules.specs.Lists.{any, between};
ghost use Rattle.rules.specs.Bytes.{big, signed_of, bytes_of, signed_bytes_of, either_side};
ghost use Rattle.layout.specs.Ensures.{Says, Number, SignedNumber, Puts, signed_in, twos_in};

// ---- read

pub fn wide(b: u8) -> usize
    ensures { Number b 256 result }
{
    b as usize
}

// A number of four bytes is that of its two halves, as one of two is.
pub fn two_at(s: &[u8], at: usize) -> usize
    requires { at + 2 ≤ length s.now }
    ensures { Number (big (take 2 (drop at s.now))) 65536 result }
{
    wide(s[at]) * 256 + wide(s[at + 1])
}

pub fn four_at(s: &[u8], at: usize) -> usize
    requires { at + 4 ≤ length s.now }
    ensures { Number (big (take 4 (drop at s.now))) 4294967296 result }
{
    two_at(s, at) * 65536 + two_at(s, at + 2)
}

// The signed number that n stands for, where `top` is the greatest number of its width: the upper half is below zero.
fn signed_in(n: usize, top: usize) -> i64
    requires { n ≤ top }
    ensures { SignedNumber (signed_in top n) (top / 2 + 1) result }
{
    if n <= top / 2 {
        n as i64
    } else {
        -1 - ((top - n) as i64)
    }
}

pub fn signed_four_at(s: &[u8], at: usize) -> i64
    requires { at + 4 ≤ length s.now }
    ensures { SignedNumber (signed_of 4 (big (take 4 (drop at s.now)))) 2147483648 result }
{
    signed_in(four_at(s, at), 4294967295)
}

// ---- written

pub fn put_two(out: &mut [u8], at: usize, n: u16)
    requires { at + 2 ≤ length out.old }
    ensures { Puts out.old at (bytes_of 2 n) out.new }
{
    out[at] = (n / 256) as u8;
    out[at + 1] = (n % 256) as u8;
}

pub fn put_four(out: &mut [u8], at: usize, n: u32)
    requires { at + 4 ≤ length out.old }
    ensures { Puts out.old at (bytes_of 4 n) out.new }
{
    put_two(out, at, (n / 65536) as u16);
    put_two(out, at + 2, (n % 65536) as u16);
}

pub fn put_eight(out: &mut [u8], at: usize, n: u64)
    requires { at + 8 ≤ length out.old }
    ensures { Puts out.old at (bytes_of 8 n) out.new }
{
    put_four(out, at, (n / 4294967296) as u32);
    put_four(out, at + 4, (n % 4294967296) as u32);
}

// The number that stands for v, where `top` is the greatest of the width.
fn twos_in(v: i64, top: u64) -> u64
    requires { mag v ≤ top }
    ensures { Number (twos_in top v) (top + 1) result }
{
    if v >= 0 {
        v as u64
    } else {
        top - ((-1 - v) as u64)
    }
}

pub fn put_signed_eight(out: &mut [u8], at: usize, v: i64)
    requires { at + 8 ≤ length out.old }
    ensures { Puts out.old at (signed_bytes_of 8 v) out.new }
{
    let n = twos_in(v, 18446744073709551615);
    put_eight(out, at, n);
}

// ---- tested

// Whether the signed number of four bytes whose unsigned one is n lies at most `most` either side of zero.
pub fn near_zero(n: usize, most: usize) -> bool
    requires { (n < 4294967296) × (most < 2147483648) }
    ensures { Says (either_side most (signed_of 4 n)) result }
{
    (n <= most) | (4294967295 - most < n)
}

// A flag to the end: of a few bytes that are written at the call, no loop is left.
pub fn is_one_of(b: u8, of: &[u8]) -> bool
    ensures { Says (any (eqb b) of.now) result }
{
    of.iter().fold(false, |found, x| found | (b == *x))
}

pub fn is_capital(b: u8) -> bool
    ensures { Says (between 65 90 b) result }
{
    (b'A' <= b) & (b <= b'Z')
}
