// The calls of `plugin` as C functions, which is what a planning tool links: include/rafttwine.h declares them. Each hands on what it is lent,
// and promises what the call of the same name promises.
#![tactic(auto)]

ghost use Rattle.std.specs.Prelude.{◌≡◌};
ghost use Rattle.rules.specs.Packaging as Packaging;
ghost use Rattle.rules.specs.Text as Text;
ghost use Rattle.price.specs.Call.{PriceIs};
ghost use Rattle.basket.specs.Basket.{BasketIs};
ghost use Rattle.calendar.specs.Calls.{CalendarIs, CalendarListIs};
ghost use Rattle.final_number.specs.Ensures.{NumberCall};
ghost use Rattle.file_rules.specs.Calls.{ReadIs, WriteIs};
ghost use Rattle.relation_rules.specs.Calls.{DeriveIs, DerivedIs};

use relation_rules::DerivedAnswer;
use rules::{CalendarAnswer, PackagingAnswer, PlacedAnswer, PriceAnswer, TextAnswer, Written};
use stretches::Stretch;

#[unsafe(no_mangle)]
pub extern "C" fn rafttwine_price(book: &[u8], question: &[u8], lines: &mut [u8]) -> PriceAnswer
    ensures { PriceIs book.now question.now lines.old result lines.new }
{
    plugin::rafttwine_price(book, question, lines)
}

#[unsafe(no_mangle)]
pub extern "C" fn rafttwine_price_derived(
    book: &[u8],
    question: &[u8],
    properties: &[u8],
    relation: &[u8],
    lines: &mut [u8],
) -> DerivedAnswer
    ensures { DerivedIs book.now question.now properties.now relation.now lines.old result lines.new }
{
    plugin::rafttwine_price_derived(book, question, properties, relation, lines)
}

#[unsafe(no_mangle)]
pub extern "C" fn rafttwine_derive(
    question: &[u8],
    properties: &[u8],
    relation: &[u8],
    out: &mut [u8],
) -> PlacedAnswer
    ensures { DeriveIs question.now properties.now relation.now out.old result out.new }
{
    plugin::rafttwine_derive(question, properties, relation, out)
}

#[unsafe(no_mangle)]
pub extern "C" fn rafttwine_basket(book: &[u8], questions: &[u8], out: &mut [u8]) -> Written
    ensures { BasketIs book.now questions.now out.old result out.new }
{
    plugin::rafttwine_basket(book, questions, out)
}

#[unsafe(no_mangle)]
pub extern "C" fn rafttwine_calendar(
    book: &[u8],
    question: &[u8],
    end: u32,
    out: &mut [u8],
) -> CalendarAnswer
    ensures { CalendarIs book.now question.now end out.old result out.new }
{
    plugin::rafttwine_calendar(book, question, end, out)
}

#[unsafe(no_mangle)]
pub extern "C" fn rafttwine_calendar_list(
    book: &[u8],
    question: &[u8],
    end: u32,
    out: &mut [Stretch],
) -> CalendarAnswer
    ensures { CalendarListIs book.now question.now end out.old result out.new }
{
    plugin::rafttwine_calendar_list(book, question, end, out)
}

#[unsafe(no_mangle)]
pub extern "C" fn rafttwine_final_number(book: &[u8], question: &[u8], out: &mut [u8]) -> Written
    ensures { NumberCall book.now question.now out.old out.new result }
{
    plugin::rafttwine_final_number(book, question, out)
}

#[unsafe(no_mangle)]
pub extern "C" fn rafttwine_packaging(book: &[u8], question: &[u8]) -> PackagingAnswer
    ensures { result ≡ Packaging.shown (Packaging.packaging book.now question.now) }
{
    plugin::rafttwine_packaging(book, question)
}

#[unsafe(no_mangle)]
pub extern "C" fn rafttwine_text(asked: &[u8], fallback: &[u8], number: u32) -> TextAnswer
    ensures { result ≡ Text.shown (Text.text asked.now fallback.now number) }
{
    plugin::rafttwine_text(asked, fallback, number)
}

#[unsafe(no_mangle)]
pub extern "C" fn rafttwine_read_prices(file: &[u8], out: &mut [u8]) -> PlacedAnswer
    ensures { ReadIs file.now out.old result out.new }
{
    plugin::rafttwine_read_prices(file, out)
}

#[unsafe(no_mangle)]
pub extern "C" fn rafttwine_write_prices(book: &[u8], out: &mut [u8]) -> PlacedAnswer
    ensures { WriteIs book.now out.old result out.new }
{
    plugin::rafttwine_write_prices(book, out)
}

// The library's version: major times 10,000, minor times 100, patch. A program that loads the library can hold it against its header.
#[unsafe(no_mangle)]
pub extern "C" fn rafttwine_version() -> u32
    ensures { result ≡ 20300 }
{
    plugin::rafttwine_version()
}
