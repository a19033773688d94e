// The columns of a price file that hold numbers, each with the semicolon behind it: a text's number, a value, a date, a quantity.
// Beside each stands how many bytes that takes.
ghost use Rattle.std.specs.Prelude.{◌+◌, ◌<◌, [], ◌∷◌, length};
ghost use Rattle.rules.specs.Bytes.{signed_of};
ghost use Rattle.rules.specs.Program.{decimal};
ghost use Rattle.file_rules.specs.Decimals.{text_text, date_text, cents_text, value_text};
ghost use Rattle.layout.specs.Ensures.{Number, PutsTo};
ghost use Rattle.decimals.specs.Texts.{ended, shown, RoomFor};

use crate::digits::{digit_count, put_decimal, put_digits};

pub fn put_byte(out: &mut [u8], at: usize, byte: u8) -> usize
    requires { at < length out.old }
    ensures { PutsTo out.old at (byte ∷ []) out.new result }
{
    out[at] = byte;
    at + 1
}

// ---- a quantity

pub fn quantity_size(n: u32) -> usize
    ensures { Number (length (ended (decimal n))) 22 result }
{
    digit_count(n) + 1
}

pub fn put_quantity(out: &mut [u8], at: usize, n: u32) -> usize
    requires { RoomFor out.old at (ended (decimal n)) }
    ensures { PutsTo out.old at (ended (decimal n)) out.new result }
{
    let end = put_decimal(out, at, n);
    put_byte(out, end, b';')
}

// ---- the last k digits of a number, where 0 is blank

fn shown_size(n: u32, k: usize) -> usize
    requires { k < 21 }
    ensures { Number (length (ended (shown k n))) (k + 2) result }
{
    if n == 0 { 1 } else { k + 1 }
}

fn put_shown(out: &mut [u8], at: usize, n: u32, k: usize) -> usize
    requires { RoomFor out.old at (ended (shown k n)) }
    ensures { PutsTo out.old at (ended (shown k n)) out.new result }
{
    if n == 0 {
        return put_byte(out, at, b';');
    }
    let end = put_digits(out, at, k, n);
    put_byte(out, end, b';')
}

// ---- a text's number: all its digits

pub fn text_size(n: u32) -> usize
    ensures { Number (length (ended (text_text n))) 22 result }
{
    shown_size(n, digit_count(n))
}

pub fn put_text(out: &mut [u8], at: usize, n: u32) -> usize
    requires { RoomFor out.old at (ended (text_text n)) }
    ensures { PutsTo out.old at (ended (text_text n)) out.new result }
{
    put_shown(out, at, n, digit_count(n))
}

// ---- a date: eight digits

pub fn date_size(n: u32) -> usize
    ensures { Number (length (ended (date_text n))) 10 result }
{
    shown_size(n, 8)
}

pub fn put_date(out: &mut [u8], at: usize, n: u32) -> usize
    requires { RoomFor out.old at (ended (date_text n)) }
    ensures { PutsTo out.old at (ended (date_text n)) out.new result }
{
    put_shown(out, at, n, 8)
}

// ---- a value with two decimals, by the unsigned number of its four bytes

fn put_cents(out: &mut [u8], at: usize, n: u32) -> usize
    requires { RoomFor out.old at (ended (cents_text n)) }
    ensures { PutsTo out.old at (ended (cents_text n)) out.new result }
{
    let point = put_decimal(out, at, n / 100);
    let cents = put_byte(out, point, b'.');
    let end = put_digits(out, cents, 2, n % 100);
    put_byte(out, end, b';')
}

pub fn value_size(n: u32) -> usize
    ensures { Number (length (ended (value_text (signed_of 4 n)))) 30 result }
{
    let value = n.cast_signed();
    let size = digit_count(value.unsigned_abs() / 100) + 4;
    if value < 0 { size + 1 } else { size }
}

pub fn put_value(out: &mut [u8], at: usize, n: u32) -> usize
    requires { RoomFor out.old at (ended (value_text (signed_of 4 n))) }
    ensures { PutsTo out.old at (ended (value_text (signed_of 4 n))) out.new result }
{
    let value = n.cast_signed();
    let cents = value.unsigned_abs();
    if value < 0 {
        let from = put_byte(out, at, b'-');
        put_cents(out, from, cents)
    } else {
        put_cents(out, at, cents)
    }
}
