// A name as a field of a price file, with the semicolon behind it: in quotes where reading needs them, and then its own quotes twice.
#![tactic(auto)]

ghost use Rattle.std.specs.Prelude.{◌<◌, length};
ghost use Rattle.file_rules.specs.Fields.{doubled};
ghost use Rattle.layout.specs.Ensures.{Says, Number, PutsTo};
ghost use Rattle.decimals.specs.Texts.{ended, RoomFor};
ghost use Rattle.quotes.specs.Names.{quotes_in, doubled_byte, quoted, text_in};

use decimals::columns::put_byte;
use layout::strings::put_bytes;

// The first field of a line must not make a remark of it.
fn needs_quotes(s: &[u8], first: bool) -> bool
    ensures { Says (quotes_in first s.now) result }
{
    let Some(byte) = s.first() else {
        return false;
    };
    (first & (*byte == b'#')) | (*byte == b'"') | s.contains(&b';')
}

// ---- how many bytes

// A quote stands twice.
fn doubled_size(s: &[u8]) -> usize
    requires { length s.now < 256 }
    ensures { Number (length (doubled s.now)) 512 result }
{
    s.len() + s.iter().filter(|byte| **byte == b'"').count()
}

pub fn name_size(s: &[u8], first: bool) -> usize
    requires { length s.now < 256 }
    ensures { Number (length (ended (text_in first s.now))) 515 result }
{
    if needs_quotes(s, first) {
        return doubled_size(s) + 3;
    }
    s.len() + 1
}

// ---- written

// A quote twice.
fn put_times(out: &mut [u8], at: usize, byte: u8) -> usize
    requires { RoomFor out.old at (doubled_byte byte) }
    ensures { PutsTo out.old at (doubled_byte byte) out.new result }
{
    let next = put_byte(out, at, byte);
    if byte == b'"' {
        return put_byte(out, next, byte);
    }
    next
}

fn put_doubled(out: &mut [u8], at: usize, s: &[u8]) -> usize
    requires { RoomFor out.old at (doubled s.now) }
    ensures { PutsTo out.old at (doubled s.now) out.new result }
{
    let mut to = at;
    for byte in s {
        to = put_times(out, to, *byte);
    }
    to
}

fn put_quoted(out: &mut [u8], at: usize, s: &[u8]) -> usize
    requires { RoomFor out.old at (ended (quoted s.now)) }
    ensures { PutsTo out.old at (ended (quoted s.now)) out.new result }
{
    let from = put_byte(out, at, b'"');
    let close = put_doubled(out, from, s);
    let end = put_byte(out, close, b'"');
    put_byte(out, end, b';')
}

pub fn put_name(out: &mut [u8], at: usize, s: &[u8], first: bool) -> usize
    requires { RoomFor out.old at (ended (text_in first s.now)) }
    ensures { PutsTo out.old at (ended (text_in first s.now)) out.new result }
{
    if needs_quotes(s, first) {
        return put_quoted(out, at, s);
    }
    let end = put_bytes(out, at, s);
    put_byte(out, end, b';')
}
