// What the kinds have in common: numbers of two and four bytes, where a name ends, and whether a record starts with a given name.
ghost use Rattle.std.specs.Prelude.{not, ◌+◌, ◌<◌, ◌≤◌, ◌≡◌, T, eqb, length};
ghost use Rattle.rules.specs.Layout.{whole};
ghost use Rattle.rules.specs.BookLayout.{kinded};
ghost use Rattle.layout.specs.Reads.{name_stop};
ghost use Rattle.layout.specs.Ensures.{Number, Says};
ghost use Rattle.kinds.specs.Fields.{number_at};
ghost use Rattle.records.specs.Asks.{Accepted};
ghost use Rattle.records.specs.Tests.{starts_with};
ghost use Rattle.records.specs.Ensures.{bytes_in};

use layout::names::same_bytes;
use layout::numbers::{four_at, two_at, wide};
use rules::Part;

pub fn half(t: &[u8], at: usize) -> u16
    requires { at + 2 ≤ length t.now }
    ensures { Number (number_at 2 t.now at) 65536 result }
{
    two_at(t, at) as u16
}

pub fn word(t: &[u8], at: usize) -> u32
    requires { at + 4 ≤ length t.now }
    ensures { Number (number_at 4 t.now at) 4294967296 result }
{
    four_at(t, at) as u32
}

// The bytes of a part of t.
pub fn bytes_of(t: &[u8], part: Part) -> &[u8]
    requires { part.at + part.size ≤ length t.now }
    ensures { result.now ≡ bytes_in t.now part }
{
    &t[part.at..part.at + part.size]
}

// Where the name at `at` ends. Its bytes were tested when the book was accepted.
pub fn name_stop(t: &[u8], at: usize) -> usize
    requires { at < length t.now }
    ensures { Number (name_stop t.now at) (at + 257) result }
{
    at + 1 + wide(t[at])
}

// Whether t is of this kind, which is not that of roundings, and starts with this name.
// Of most records of a book the kind byte or the length byte is another, so these go first.
// As it is: a byte and no `Kind`, since what is promised here is so of every byte.
pub fn starts_with(t: &[u8], kind: u8, name: &[u8]) -> bool
    requires accepted { Accepted t.now }
    requires t { T (not (eqb kind 3)) }
    ensures { Says (starts_with kind name.now (whole kinded t.now)) result }
{
    if t[0] != kind {
        return false;
    }
    let end = name_stop(t, 1);
    same_bytes(&t[2..end], name)
}
