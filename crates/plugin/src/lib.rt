// The calls that a planning tool links, by `plugin_c`: thin, total, each with the contract of the call behind it. Only the list of records is
// filled here.
#![tactic(auto)]

ghost use Rattle.std.specs.Prelude.{◌≡◌};
ghost use Rattle.rules.specs.Packaging as Packaging;
ghost use Rattle.rules.specs.Text as Text;
ghost use Rattle.price.specs.Call.{PriceIs};
ghost use Rattle.basket.specs.Basket.{BasketIs};
ghost use Rattle.calendar.specs.Calls.{CalendarIs, CalendarListIs};
ghost use Rattle.final_number.specs.Ensures.{NumberCall};
ghost use Rattle.file_rules.specs.Calls.{ReadIs, WriteIs};
ghost use Rattle.relation_rules.specs.Calls.{DeriveIs, DerivedIs};

use calendar::list::{list_answer, stretch_at};
use calendar::listing::listing_of;
use relation_rules::DerivedAnswer;
use rules::{CalendarAnswer, PackagingAnswer, PlacedAnswer, PriceAnswer, TextAnswer, Written};
use stretches::Stretch;

pub fn rafttwine_price(book: &[u8], question: &[u8], lines: &mut [u8]) -> PriceAnswer
    ensures { PriceIs book.now question.now lines.old result lines.new }
{
    price::call::price(book, question, lines)
}

pub fn rafttwine_price_derived(
    book: &[u8],
    question: &[u8],
    properties: &[u8],
    relation: &[u8],
    lines: &mut [u8],
) -> DerivedAnswer
    ensures { DerivedIs book.now question.now properties.now relation.now lines.old result lines.new }
{
    derived_price::price_derived(book, question, properties, relation, lines)
}

pub fn rafttwine_derive(
    question: &[u8],
    properties: &[u8],
    relation: &[u8],
    out: &mut [u8],
) -> PlacedAnswer
    ensures { DeriveIs question.now properties.now relation.now out.old result out.new }
{
    derive::derive(question, properties, relation, out)
}

pub fn rafttwine_basket(book: &[u8], questions: &[u8], out: &mut [u8]) -> Written
    ensures { BasketIs book.now questions.now out.old result out.new }
{
    basket::basket(book, questions, out)
}

pub fn rafttwine_calendar(book: &[u8], question: &[u8], end: u32, out: &mut [u8]) -> CalendarAnswer
    ensures { CalendarIs book.now question.now end out.old result out.new }
{
    calendar::calendar(book, question, end, out)
}

pub fn rafttwine_calendar_list(
    book: &[u8],
    question: &[u8],
    end: u32,
    out: &mut [Stretch],
) -> CalendarAnswer
    ensures { CalendarListIs book.now question.now end out.old result out.new }
{
    let listing = listing_of(book, question, end);
    let answer = list_answer(&listing, out.len());
    let n = answer.length as usize;
    for i in 0..n {
        out[i] = stretch_at(&listing, i);
    }
    answer
}

pub fn rafttwine_final_number(book: &[u8], question: &[u8], out: &mut [u8]) -> Written
    ensures { NumberCall book.now question.now out.old out.new result }
{
    final_number::final_number(book, question, out)
}

pub fn rafttwine_packaging(book: &[u8], question: &[u8]) -> PackagingAnswer
    ensures { result ≡ Packaging.shown (Packaging.packaging book.now question.now) }
{
    packaging::packaging(book, question)
}

pub fn rafttwine_text(asked: &[u8], fallback: &[u8], number: u32) -> TextAnswer
    ensures { result ≡ Text.shown (Text.text asked.now fallback.now number) }
{
    texts::text_answer(asked, fallback, number)
}

pub fn rafttwine_read_prices(file: &[u8], out: &mut [u8]) -> PlacedAnswer
    ensures { ReadIs file.now out.old result out.new }
{
    reading::read_prices(file, out)
}

pub fn rafttwine_write_prices(book: &[u8], out: &mut [u8]) -> PlacedAnswer
    ensures { WriteIs book.now out.old result out.new }
{
    write_prices::write_prices(book, out)
}

// The library's version: major times 10,000, minor times 100, patch. A program that loads the library can hold it against its header.
pub fn rafttwine_version() -> u32
    ensures { result ≡ 20300 }
{
    20_300
}
