// The parts of the program's input: a book, a question and an end date, one behind the other. The first two begin with their own length.
ghost use Rattle.std.specs.Prelude.{◌≡◌, ◌^◌, length};
ghost use Rattle.rules.specs.Bytes.{own_length};
ghost use Rattle.rules.specs.Program.{end_of};
ghost use Rattle.layout.specs.Ensures.{Number};
ghost use Rattle.printing.specs.Input.{FrontIs};

use layout::numbers::{four_at, wide};

// The number in the first four bytes, or in as many as there are.
fn own_length(s: &[u8]) -> usize
    ensures { Number (own_length s.now) (2 ^ 32) result }
{
    let end = 4.min(s.len());
    let front = &s[..end];
    let mut n = 0;
    for b in front {
        n = n * 256 + wide(*b);
    }
    n
}

// Where the part in front ends: after its own length, or where the bytes end.
pub fn front(s: &[u8]) -> usize
    ensures { FrontIs s.now result }
{
    own_length(s).min(s.len())
}

// An end date of another length is read as 0, which is no day.
#[tactic(auto, using(crate::proofs::InputLaws::end_read, crate::proofs::InputLaws::end_none))]
pub fn end_of(s: &[u8]) -> u32
    ensures { result ≡ end_of s.now }
{
    if s.len() == 4 {
        return four_at(s, 0) as u32;
    }
    0
}
