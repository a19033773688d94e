// What stands behind the names of a price record: its numbers by value, whether a line can hold them, and their columns in one.
#![tactic(auto)]

ghost use Rattle.std.specs.Prelude.{◌+◌, ◌≤◌, ◌<◌, [], ◌∷◌, length, get_or};
ghost use Rattle.layout.specs.Ensures.{Says, Number, PutsTo};
ghost use Rattle.decimals.specs.Texts.{ended, RoomFor};
ghost use Rattle.price_terms.specs.Terms.{fit_terms, flag_digit, kind_text, worth_by, span_text, tail_text, TermsAre, SizeIs};

use decimals::columns::{
    date_size, put_byte, put_date, put_quantity, put_text, put_value, quantity_size, text_size,
    value_size,
};
use layout::numbers::{four_at, two_at};
use layout::strings::put_bytes;

// The value by the unsigned number of its four bytes.
#[derive(Clone, Copy, PartialEq, Eq)]
pub struct Terms {
    pub text: u32,
    pub value: u32,
    pub from: u32,
    pub to: u32,
    pub upto: u32,
    pub rounding: u16,
}

// Of the record t, whose names end at p.
pub fn terms_of(t: &[u8], p: usize) -> Terms
    requires { p + 29 ≤ length t.now }
    ensures { TermsAre t.now p result }
{
    Terms {
        text: four_at(t, p + 3) as u32,
        value: four_at(t, p + 8) as u32,
        from: four_at(t, p + 15) as u32,
        to: four_at(t, p + 19) as u32,
        upto: four_at(t, p + 23) as u32,
        rounding: two_at(t, p + 27) as u16,
    }
}

// A line names no rounding, and its dates have eight digits.
pub fn fits_line(terms: Terms) -> bool
    ensures { Says (fit_terms terms) result }
{
    (terms.rounding == 0) & (terms.from <= 99_999_999) & (terms.to <= 99_999_999)
}

// The bytes of all columns behind the names, and of the line's end. Five columns have one byte each, the currency has three.
pub fn terms_size(terms: Terms) -> usize
    ensures { SizeIs terms result }
{
    let text = text_size(terms.text);
    let value = value_size(terms.value);
    let from = date_size(terms.from);
    let to = date_size(terms.to);
    let upto = quantity_size(terms.upto);
    text + value + from + to + upto + 13
}

// ---- written

fn put_letter(out: &mut [u8], at: usize, byte: u8) -> usize
    requires { RoomFor out.old at (ended (byte ∷ [])) }
    ensures { PutsTo out.old at (ended (byte ∷ [])) out.new result }
{
    let end = put_byte(out, at, byte);
    put_byte(out, end, b';')
}

fn flag_digit(flag: u8) -> u8
    ensures { Number (flag_digit flag) 256 result }
{
    if flag == 0 { b'0' } else { b'1' }
}

// Sort, level, rule, and the text's number.
pub fn put_kinds(out: &mut [u8], at: usize, t: &[u8], p: usize, text: u32) -> usize
    requires p_in_bounds { p + 29 ≤ length t.now }
    requires rule_bound { get_or t.now (p + 2) 0 < 10 }
    requires room_for { RoomFor out.old at (kind_text t.now p text) }
    ensures { PutsTo out.old at (kind_text t.now p text) out.new result }
{
    let level = put_letter(out, at, t[p]);
    let rule = put_letter(out, level, t[p + 1]);
    let number = put_letter(out, rule, b'0' + t[p + 2]);
    put_text(out, number, text)
}

// Value, flag and currency.
fn put_worth(out: &mut [u8], at: usize, value: u32, flag: u8, currency: &[u8]) -> usize
    requires { RoomFor out.old at (worth_by value flag currency.now) }
    ensures { PutsTo out.old at (worth_by value flag currency.now) out.new result }
{
    let a = put_value(out, at, value);
    let b = put_letter(out, a, flag);
    let c = put_bytes(out, b, currency);
    put_byte(out, c, b';')
}

// Both dates, the quantity, no rounding, and the line's end.
fn put_span(out: &mut [u8], at: usize, from: u32, to: u32, upto: u32) -> usize
    requires { RoomFor out.old at (span_text from to upto) }
    ensures { PutsTo out.old at (span_text from to upto) out.new result }
{
    let a = put_date(out, at, from);
    let b = put_date(out, a, to);
    let c = put_quantity(out, b, upto);
    put_byte(out, c, b'\n')
}

// All that stands behind the text's number.
pub fn put_tail(out: &mut [u8], at: usize, t: &[u8], p: usize, terms: Terms) -> usize
    requires p_in_bounds { p + 29 ≤ length t.now }
    requires room_for { RoomFor out.old at (tail_text t.now p terms) }
    ensures { PutsTo out.old at (tail_text t.now p terms) out.new result }
{
    let flag = flag_digit(t[p + 7]);
    let from = p + 12;
    let span = put_worth(out, at, terms.value, flag, &t[from..p + 15]);
    put_span(out, span, terms.from, terms.to, terms.upto)
}
