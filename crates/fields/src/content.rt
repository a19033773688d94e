// The text of a field, copied and compared: where quotes in its bytes stand twice, once.
ghost use Rattle.std.specs.Prelude.{◌+◌, ◌≤◌, length, ◌≡◌};
ghost use Rattle.layout.specs.Ensures.{PutsTo, Says};
ghost use Rattle.fields.specs.Field.{text_of, TextIs};
ghost use Rattle.fields.specs.Content.{InnerText, Step, StepIn, PutsInner};
ghost use Rattle.rules.specs.Lists.{same};

use crate::field::Field;
use layout::strings::put_bytes;

// A quote is followed by a second one.
fn step_over(byte: u8) -> usize
    ensures { Step byte result }
{
    if byte == b'"' { 2 } else { 1 }
}

// The text of `count` bytes behind an opening quote.
fn put_inner(out: &mut [u8], at: usize, line: &[u8], from: usize, count: usize) -> usize
    requires count_in_bounds { at + count ≤ length out.old }
    requires inner_text { InnerText line.now from count }
    ensures { PutsInner out.old at line.now from out.new result }
{
    let mut i = from;
    for n in 0..count {
        let byte = line[i];
        out[at + n] = byte;
        i += step_over(byte);
    }
    at + count
}

pub fn put_text(out: &mut [u8], at: usize, line: &[u8], f: Field) -> usize
    requires count_in_bounds { at + f.count ≤ length out.old }
    requires text_is { TextIs line.now f }
    ensures { PutsTo out.old at (text_of line.now f) out.new result }
{
    let from = f.from;
    let to = f.to;
    let count = f.count;
    if count < to - from {
        return put_inner(out, at, line, from, count);
    }
    put_bytes(out, at, &line[from..to])
}

// ---- compared

// A quote is followed by a second one where quotes stand twice.
fn step_in(f: Field, byte: u8) -> usize
    requires { f.from ≤ f.to }
    ensures { StepIn f byte result }
{
    if f.count < f.to - f.from {
        return step_over(byte);
    }
    1
}

// Byte by byte, where either text may have its quotes twice.
fn same_from(line: &[u8], f: Field, other: &[u8], g: Field) -> bool
    requires text_is { TextIs line.now f }
    requires text_is_2 { TextIs other.now g }
    requires count_value { f.count ≡ g.count }
    ensures { Says (same (text_of line.now f) (text_of other.now g)) result }
{
    let mut i = f.from;
    let mut j = g.from;
    let mut ok = true;
    for _n in 0..f.count {
        let a = line[i];
        let b = other[j];
        ok = ok & (a == b);
        i += step_in(f, a);
        j += step_in(g, b);
    }
    ok
}

pub fn same_text(line: &[u8], f: Field, other: &[u8], g: Field) -> bool
    requires text_is { TextIs line.now f }
    requires text_is_2 { TextIs other.now g }
    ensures { Says (same (text_of line.now f) (text_of other.now g)) result }
{
    if f.count == g.count {
        return same_from(line, f, other, g);
    }
    false
}
