// The names of texts that were met, in a table: each at the field where it stood first, and found again along a chain of those with the same hash.
#![tactic(auto)]

ghost use Rattle.std.specs.Prelude.{◌≡◌};
ghost use Rattle.rules.specs.Lists.{same};
ghost use Rattle.layout.specs.Ensures.{Says};
ghost use Rattle.fields.specs.Field.{text_of, TextIs};
ghost use Rattle.text_names.specs.Hashes.{name_from, add_byte, hash_of, Hashed, StartsName};
ghost use Rattle.text_names.specs.Names.{Chains, FoundIn, Vacant, EnteredIn};

use fields::content::same_text;
use fields::field::{Field, field_at};

// So many names have their numbers in two bytes.
pub const MOST: usize = 65_535;

pub const HASHES: usize = 65_536;

// `count` names: `starts` has where their fields start, `before` the number of the last name before each with the same hash, and `last` by hash the
// number of the last name that has it. Numbers count from 1, and 0 stands where there is none: the memory is fixed, and a number has two bytes of it.
#[derive(Drop)]
pub struct Names {
    pub starts: [usize; MOST],
    pub before: [u16; MOST],
    pub last: [u16; HASHES],
    pub count: usize,
}

// Whether the field that starts there names this text.
fn is_named(file: &[u8], start: usize, line: &[u8], f: Field) -> bool
    requires starts_name { StartsName file.now start }
    requires text_is { TextIs line.now f }
    ensures { Says (same (name_from file.now start) (text_of line.now f)) result }
{
    let Some(name) = field_at(file, start) else {
        unreachable!()
    };
    same_text(file, name, line, f)
}

// ---- a table that is lent as its three arrays, with k names in it

// The number of this text's name, which has hash h.
pub fn find(
    file: &[u8],
    starts: &[usize],
    before: &[u16],
    last: &[u16],
    k: usize,
    h: usize,
    line: &[u8],
    f: Field,
) -> Option<usize>
    requires table { Chains file.now starts.now before.now last.now k }
    requires hashed { Hashed (text_of line.now f) h }
    requires text_is { TextIs line.now f }
    ensures { FoundIn file.now starts.now k (text_of line.now f) result }
{
    let mut number = last[h];
    while 0 < number {
        let i = number as usize - 1;
        if is_named(file, starts[i], line, f) {
            return Some(number as usize);
        }
        number = before[i];
    }
    None
}

// Name k + 1, met first in the field that starts there, with hash h.
pub fn enter(
    starts: &mut [usize],
    before: &mut [u16],
    last: &mut [u16],
    k: usize,
    start: usize,
    h: usize,
)
    requires { Vacant starts.old before.old last.old k h }
    ensures { EnteredIn starts.old before.old last.old k start h starts.new before.new last.new }
{
    starts[k] = start;
    before[k] = last[h];
    last[h] = (k + 1) as u16;
}

// ---- a table of its own

impl Names {
    ghost use Rattle.std.specs.Prelude.{◌<◌, leb};
    ghost use Rattle.text_names.specs.Names.{Table, FoundIs, EnteredIs, Empty};

    // None yet.
    pub fn new() -> Names
        ensures { Empty result }
    {
        Names {
            starts: [0; MOST],
            before: [0; MOST],
            last: [0; HASHES],
            count: 0,
        }
    }

    pub fn is_full(&self) -> bool
        ensures { result ≡ leb 65535 self.now.count }
    {
        MOST <= self.count
    }

    // The number of this text's name, which has hash h.
    pub fn find(&self, file: &[u8], line: &[u8], f: Field, h: u16) -> Option<usize>
        requires table { Table file.now self.now }
        requires hashed { h ≡ hash_of (text_of line.now f) }
        requires text_is { TextIs line.now f }
        ensures { FoundIs file.now self.now (text_of line.now f) result }
    {
        find(
            file,
            &self.starts,
            &self.before,
            &self.last,
            self.count,
            h as usize,
            line,
            f,
        )
    }

    // One more, met first in the field that starts there, with hash h.
    pub fn enter(&mut self, start: usize, h: u16)
        requires { self.old.count < 65535 }
        ensures { EnteredIs self.old start h self.new }
    {
        let k = self.count;
        enter(
            &mut self.starts,
            &mut self.before,
            &mut self.last,
            k,
            start,
            h as usize,
        );
        self.count = k + 1;
    }
}

// ---- the hash of a name

fn add_byte(n: u16, byte: u8) -> u16
    ensures { result ≡ add_byte n byte }
{
    if byte == b'"' {
        return n;
    }
    n.wrapping_mul(31).wrapping_add(byte as u16)
}

// Over the bytes between the quotes: those that stand twice do not count anyway.
pub fn hash_of(line: &[u8], f: Field) -> u16
    requires { TextIs line.now f }
    ensures { result ≡ hash_of (text_of line.now f) }
{
    line[f.from..f.to]
        .iter()
        .fold(0, |n, byte| add_byte(n, *byte))
}
