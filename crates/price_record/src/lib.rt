// A row of the price file, written as a price record of the book.
#![tactic(auto)]

ghost use Rattle.std.specs.Prelude.{◌+◌, ◌-◌, ◌≤◌, ◌<◌, [], ◌∷◌, length};
ghost use Rattle.rules.specs.Bytes.{bytes_of, twos};
ghost use Rattle.rules.specs.RowBytes.{name_bytes, value_bytes, row_bytes};
ghost use Rattle.file_rules.specs.PriceFile.{with_text};
ghost use Rattle.layout.specs.Ensures.{Number, PutsTo};
ghost use Rattle.fields.specs.Field.{text_of};
ghost use Rattle.figures.specs.Figures.{signed_by, letters_of};
ghost use Rattle.price_line.specs.Line.{Worth, row_on};
ghost use Rattle.price_record.specs.Put.{head_bytes, kind_bytes, span_bytes, flag_bit, term_bytes, NameRoom, TermRoom, ToPut};

use fields::content::put_text;
use fields::field::Field;
use figures::Amount;
use layout::numbers::put_four;
use price_line::{Kinds, PriceLine, Priced, Span};
use rules::Currency;

fn put_byte(out: &mut [u8], at: usize, byte: u8) -> usize
    requires { at < length out.old }
    ensures { PutsTo out.old at (byte ∷ []) out.new result }
{
    out[at] = byte;
    at + 1
}

fn put_pair(out: &mut [u8], at: usize, n: u16) -> usize
    requires { at + 2 ≤ length out.old }
    ensures { PutsTo out.old at (bytes_of 2 n) out.new result }
{
    out[at] = (n / 256) as u8;
    out[at + 1] = (n % 256) as u8;
    at + 2
}

fn put_number(out: &mut [u8], at: usize, n: u32) -> usize
    requires { at + 4 ≤ length out.old }
    ensures { PutsTo out.old at (bytes_of 4 n) out.new result }
{
    put_four(out, at, n);
    at + 4
}

// The record's length, of which the kind counts, and the kind.
fn put_head(out: &mut [u8], at: usize, size: u16) -> usize
    requires { at + 3 ≤ length out.old }
    ensures { PutsTo out.old at (head_bytes size) out.new result }
{
    let kind = put_pair(out, at, size);
    put_byte(out, kind, 2)
}

// A name behind its length.
fn put_name(out: &mut [u8], at: usize, line: &[u8], f: Field) -> usize
    requires { NameRoom out.old at line.now f }
    ensures { PutsTo out.old at (name_bytes (text_of line.now f)) out.new result }
{
    let from = put_byte(out, at, f.count as u8);
    put_text(out, from, line, f)
}

// What a digit stands for.
fn digit_of(byte: u8) -> u8
    ensures { Number (byte - 48) 256 result }
{
    byte.saturating_sub(b'0')
}

// Sort, level and rule, and the number of the text.
fn put_kinds(out: &mut [u8], at: usize, kinds: Kinds, text: u32) -> usize
    requires { at + 7 ≤ length out.old }
    ensures { PutsTo out.old at (kind_bytes kinds text) out.new result }
{
    let rule = digit_of(kinds.rule);
    let a = put_byte(out, at, kinds.sort);
    let b = put_byte(out, a, kinds.level);
    let c = put_byte(out, b, rule);
    put_number(out, c, text)
}

// Four bytes with a sign.
fn twos_of(amount: Amount) -> u32
    ensures { Number (twos 4 (signed_by amount.minus amount.hundredths)) 4294967296 result }
{
    let n = amount.hundredths;
    if n < 1 {
        return n;
    }
    if amount.minus {
        return 4294967295 - (n - 1);
    }
    n
}

fn flag_of(byte: u8) -> u8
    ensures { Number (flag_bit byte) 256 result }
{
    u8::from(b'0' < byte)
}

fn put_value(out: &mut [u8], at: usize, priced: Priced) -> usize
    requires { at + 5 ≤ length out.old }
    ensures { PutsTo out.old at (value_bytes (Worth priced.flag priced.amount)) out.new result }
{
    let amount = priced.amount;
    let n = twos_of(amount);
    let flag = flag_of(priced.flag);
    let a = put_byte(out, at, flag);
    put_number(out, a, n)
}

fn put_currency(out: &mut [u8], at: usize, currency: Currency) -> usize
    requires { at + 3 ≤ length out.old }
    ensures { PutsTo out.old at (letters_of currency) out.new result }
{
    let a = put_byte(out, at, currency.0);
    let b = put_byte(out, a, currency.1);
    put_byte(out, b, currency.2)
}

// Both dates, the quantity, and no rounding.
fn put_span(out: &mut [u8], at: usize, span: Span) -> usize
    requires { at + 14 ≤ length out.old }
    ensures { PutsTo out.old at (span_bytes span) out.new result }
{
    let a = put_number(out, at, span.from);
    let b = put_number(out, a, span.to);
    let c = put_number(out, b, span.upto);
    put_pair(out, c, 0)
}

// What stands behind the names.
fn put_terms(out: &mut [u8], at: usize, row: PriceLine, text: u32) -> usize
    requires { TermRoom out.old at }
    ensures { PutsTo out.old at (term_bytes row text) out.new result }
{
    let kinds = row.kinds;
    let priced = row.priced;
    let currency = row.currency;
    let span = row.span;
    let a = put_kinds(out, at, kinds, text);
    let b = put_value(out, a, priced);
    let c = put_currency(out, b, currency);
    put_span(out, c, span)
}

// The record of the row, with the number of its text.
pub fn put_row(out: &mut [u8], at: usize, line: &[u8], row: PriceLine, text: u32) -> usize
    requires { ToPut line.now row out.old at }
    ensures { PutsTo out.old at (row_bytes (with_text text (row_on line.now row).row)) out.new result }
{
    let article = row.article;
    let condition = row.condition;
    let size = 32 + article.count + condition.count;
    let a = put_head(out, at, size as u16);
    let b = put_name(out, a, line, article);
    let c = put_name(out, b, line, condition);
    put_terms(out, c, row, text)
}
