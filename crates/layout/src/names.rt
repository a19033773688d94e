// Names: printable bytes behind a length byte; compared, and raised to capitals.
ghost use Rattle.std.specs.Prelude.{◌+◌, ◌≤◌, map, length};
ghost use Rattle.rules.specs.Lists.{all, same};
ghost use Rattle.rules.specs.Bytes.{name_byte, small_letter, raise};
ghost use Rattle.layout.specs.Ensures.{Says, Number, NameEnd, Puts};
ghost use Rattle.layout.specs.Ends.{EndOrNone};

use crate::numbers::wide;

pub fn is_name_byte(b: u8) -> bool
    ensures { Says (name_byte b) result }
{
    ((32 <= b) & (b <= 126)) | ((160 <= b) & (b <= 255))
}

// A flag to the end, with no way out before it: many bytes are then tested at a time.
pub fn all_name_bytes(s: &[u8]) -> bool
    ensures { Says (all name_byte s.now) result }
{
    s.iter().fold(true, |ok, b| ok & is_name_byte(*b))
}

// Where the name of lo to hi bytes at `at` ends, if one stands there.
pub fn name_end(s: &[u8], at: usize, lo: usize, hi: usize) -> Option<usize>
    requires { at ≤ length s.now }
    ensures { EndOrNone (NameEnd lo hi s.now at) result }
{
    if s.len() <= at {
        return None;
    }
    let n = wide(s[at]);
    let from = at + 1;
    if s.len() - from < n {
        return None;
    }
    let end = from + n;
    if (lo <= n) & (n <= hi) & all_name_bytes(&s[from..end]) {
        Some(end)
    } else {
        None
    }
}

// The lengths first, then the last bytes, in which numbers of one catalogue mostly differ; then a flag to the end, as above.
pub fn same_bytes(a: &[u8], b: &[u8]) -> bool
    ensures { Says (same a.now b.now) result }
{
    let n = a.len();
    if n != b.len() {
        return false;
    }
    if n < 1 {
        return true;
    }
    let last = n - 1;
    if a[last] != b[last] {
        return false;
    }
    a.iter().zip(b).fold(true, |ok, (x, y)| ok & (x == y))
}

// One that has a capital in Latin-1; 247 is the sign of division.
fn is_small_letter(b: u8) -> bool
    ensures { Says (small_letter b) result }
{
    ((b'a' <= b) & (b <= b'z')) | ((224 <= b) & (b <= 254) & !(b == 247))
}

// A small letter's capital; any other byte as it is.
pub fn raise_byte(b: u8) -> u8
    ensures { Number (raise b) 256 result }
{
    if is_small_letter(b) { b - 32 } else { b }
}

pub fn put_raised(out: &mut [u8], at: usize, name: &[u8])
    requires { at + length name.now ≤ length out.old }
    ensures { Puts out.old at (map raise name.now) out.new }
{
    for (i, b) in name.iter().enumerate() {
        out[at + i] = raise_byte(*b);
    }
}
