// The prices of a whole basket: one book, many questions, and for each the answer that it gets alone.
#![tactic(auto)]

mod answers;
mod asked;
mod located;
mod question_lines;

ghost use Rattle.std.specs.Prelude.{MatchResult};
ghost use Rattle.basket.specs.Held.{Held};
ghost use Rattle.basket.specs.Basket.{BasketIs, BasketRefused};

use crate::answers::{ANSWER_SIZE, answers_to};
use crate::asked::Basket;
use crate::located::locate;
use crate::question_lines::put_lines;
use layout::strings::put_bytes;
use questions::questions_of;
use rules::{LINE_SIZE, Refusal, Written};
use survey::is_book;

// The most questions that a basket has.
const MOST: usize = 200;
// So many bytes of lines are kept while the questions are answered: 23 lines for each of the most questions.
const KEPT_SIZE: usize = 65_536;

// How many bytes are written: that is known before the first is.
fn filled(basket: &Basket, out: &mut [u8]) -> Result<usize, Refusal>
    requires { Held basket.now }
    ensures { MatchResult result (λ n. BasketIs basket.now.book.now basket.now.questions.now out.old (record { length = n; number = 0 }) out.new)
        (λ x. BasketRefused basket.now.book.now basket.now.questions.now out.old x out.new) }
{
    let mut kept = [0u8; KEPT_SIZE];
    let answers = answers_to(basket, &mut kept);
    let head = ANSWER_SIZE * basket.stretches.len();
    let size = head + LINE_SIZE * answers.lines;
    if out.len() < size {
        return Err(Refusal::ShortOutput);
    }
    put_bytes(out, 0, &answers.bytes[..head]);
    put_lines(basket, out, head, &kept, answers.end);
    Ok(size)
}

// What is read and found is lent on, and not taken out of its `Option`: each would stand on the stack twice. The questions are looked at first, so that the book is gone through no more than twice; a book that is none is refused before them.
fn priced(book: &[u8], questions: &[u8], out: &mut [u8]) -> Result<usize, Refusal>
    ensures { MatchResult result (λ n. BasketIs book.now questions.now out.old (record { length = n; number = 0 }) out.new)
        (λ x. BasketRefused book.now questions.now out.old x out.new) }
{
    let read = questions_of(questions, MOST);
    let Some(list) = &read else {
        if is_book(book) {
            return Err(Refusal::BrokenQuestion);
        }
        return Err(Refusal::BrokenBook);
    };
    let stretches = &list.stretches[..list.count];
    let there = locate(book, questions, stretches);
    let Some(found) = &there else {
        return Err(Refusal::BrokenBook);
    };
    let basket = Basket {
        book,
        questions,
        stretches,
        found,
    };
    filled(&basket, out)
}

pub fn basket(book: &[u8], questions: &[u8], out: &mut [u8]) -> Written
    ensures { BasketIs book.now questions.now out.old result out.new }
{
    match priced(book, questions, out) {
        Ok(size) => Written {
            length: size as u64,
            number: 0,
        },
        Err(reason) => Written::from(reason),
    }
}
