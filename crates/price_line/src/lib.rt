// A line of the price file, by value: its thirteen fields, and the row that they are. Its three texts stay in the line.
#![tactic(auto)]

mod meanings;

ghost use Rattle.std.specs.Prelude.{◌&&◌, ◌∷◌, [], MatchOption};
ghost use Rattle.rules.specs.Layout.{whole};
ghost use Rattle.rules.specs.Lists.{all};
ghost use Rattle.rules.specs.Bytes.{name_byte};
ghost use Rattle.rules.specs.BookLayout.{in_bounds};
ghost use Rattle.file_rules.specs.PriceLine.{is_name, price_line};
ghost use Rattle.layout.specs.Ensures.{Says};
ghost use Rattle.fields.specs.Given.{GivesNone};
ghost use Rattle.fields.specs.Field.{text_of, TextIs};
ghost use Rattle.price_line.specs.Line.{FieldsAre, kinds_in, worth_in, span_in, Worth, Kinded, ValueAre, Spanned, LineIs};

use crate::meanings::{capitals_in, day_in, letter_in, named_in, number_in, value_in};
use fields::field::{Field, field_at, next_field};
use figures::Amount;
use rules::Currency;

// Sort, level and rule, each as its letter: a price record holds the letters too, so that an enum between them would be no plainer.
#[derive(Clone, Copy, PartialEq, Eq)]
pub struct Kinds {
    pub sort: u8,
    pub level: u8,
    pub rule: u8,
}

// The value, and its flag as a letter.
#[derive(Clone, Copy, PartialEq, Eq)]
pub struct Priced {
    pub amount: Amount,
    pub flag: u8,
}

// When it holds, and up to which quantity.
#[derive(Clone, Copy, PartialEq, Eq)]
pub struct Span {
    pub from: u32,
    pub to: u32,
    pub upto: u32,
}

// `start` is where the field of the text's name starts.
#[derive(Clone, Copy, PartialEq, Eq)]
pub struct PriceLine {
    pub article: Field,
    pub condition: Field,
    pub name: Field,
    pub start: usize,
    pub kinds: Kinds,
    pub priced: Priced,
    pub currency: Currency,
    pub span: Span,
}

// Thirteen fields, each behind the one before.
fn fields_of(line: &[u8]) -> Option<[Field; 13]>
    ensures { MatchOption result (GivesNone (whole price_line line.now)) (FieldsAre line.now) }
{
    let first = field_at(line, 0)?;
    let mut fields = [first; 13];
    for k in 1..13 {
        let at = fields[k - 1].next;
        fields[k] = next_field(line, at)?;
    }
    Some(fields)
}

// Article, condition, and the name of the text.
fn names_fit(line: &[u8], article: Field, condition: Field, name: Field) -> bool
    requires article_is { TextIs line.now article }
    requires condition_is { TextIs line.now condition }
    requires name_is { TextIs line.now name }
    ensures { Says ((is_name 1 40 (text_of line.now article) && is_name 0 20 (text_of line.now condition)) && all name_byte (text_of line.now name)) result }
{
    let a = (1 <= article.count) & (article.count <= 40) & named_in(line, article);
    let c = (condition.count <= 20) & named_in(line, condition);
    a & c & named_in(line, name)
}

fn kinds_of(line: &[u8], sort: Field, level: Field, rule: Field) -> Option<Kinds>
    requires sort_is { TextIs line.now sort }
    requires level_is { TextIs line.now level }
    requires rule_is { TextIs line.now rule }
    ensures { MatchOption result (GivesNone (kinds_in (text_of line.now sort) (text_of line.now level) (text_of line.now rule))) (Kinded line.now sort level rule) }
{
    Some(Kinds {
        sort: letter_in(line, sort, b"SP")?,
        level: letter_in(line, level, b"BXD")?,
        rule: letter_in(line, rule, b"12")?,
    })
}

// An amount has at most 100,000,000 hundredths, a share at most 100,000.
fn in_range(flag: u8, amount: Amount) -> bool
    ensures { Says (in_bounds (Worth flag amount)) result }
{
    if flag <= b'0' {
        return amount.hundredths <= 100000;
    }
    amount.hundredths <= 100000000
}

fn priced_of(line: &[u8], value: Field, flag: Field) -> Option<Priced>
    requires value_is { TextIs line.now value }
    requires flag_is { TextIs line.now flag }
    ensures { MatchOption result (GivesNone (worth_in (text_of line.now value) (text_of line.now flag))) (ValueAre line.now value flag) }
{
    let amount = value_in(line, value)?;
    let letter = letter_in(line, flag, b"01")?;
    if in_range(letter, amount) {
        return Some(Priced {
            amount,
            flag: letter,
        });
    }
    None
}

fn span_of(line: &[u8], from: Field, to: Field, upto: Field) -> Option<Span>
    requires from_is { TextIs line.now from }
    requires to_is { TextIs line.now to }
    requires upto_is { TextIs line.now upto }
    ensures { MatchOption result (GivesNone (span_in (text_of line.now from) (text_of line.now to) (text_of line.now upto))) (Spanned line.now from to upto) }
{
    Some(Span {
        from: day_in(line, from)?,
        to: day_in(line, to)?,
        upto: number_in(line, upto)?,
    })
}

// The row that the fields are, if each means something and nothing stands behind the last.
pub fn price_line(line: &[u8]) -> Option<PriceLine>
    ensures { MatchOption result (GivesNone (whole price_line line.now)) (LineIs line.now) }
{
    let fields = fields_of(line)?;
    let [
        article,
        condition,
        sort,
        level,
        rule,
        name,
        value,
        flag,
        money,
        from,
        to,
        upto,
        last,
    ] = fields;
    if !names_fit(line, article, condition, name) {
        return None;
    }
    let kinds = kinds_of(line, sort, level, rule)?;
    let priced = priced_of(line, value, flag)?;
    let currency = capitals_in(line, money)?;
    let span = span_of(line, from, to, upto)?;
    if last.count != 0 {
        return None;
    }
    if last.next != line.len() {
        return None;
    }
    let start = rule.next + 1;
    Some(PriceLine {
        article,
        condition,
        name,
        start,
        kinds,
        priced,
        currency,
        span,
    })
}
