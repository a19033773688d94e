// The answers of a basket in bytes, 33 each, one behind the other, and how many lines go with them.
ghost use Rattle.std.specs.Prelude.{◌+◌, ◌≤◌, length};
ghost use Rattle.layout.specs.Ensures.{Puts};
ghost use Rattle.basket.specs.Held.{Held};
ghost use Rattle.basket.specs.Basket.{totals_bytes, AnswerPut, AnswersAre};

use crate::asked::Basket;
use layout::numbers::{put_eight, put_four, put_signed_eight};
use layout::strings::{put_bytes, put_run};
use rules::PriceAnswer;

// The bytes of an answer.
pub const ANSWER_SIZE: usize = 33;
// Of the answers of the largest basket.
pub const ANSWERS_SIZE: usize = 6600;

// The answers stand at the front, zeros behind them. The lines that were kept end at `end`, if they were not too many.
// As it is: the bytes have no count of their own, since there are so many of them as there are questions.
#[derive(Drop)]
pub struct Answers {
    pub bytes: [u8; ANSWERS_SIZE],
    pub lines: usize,
    pub end: Option<usize>,
}

// Number, unit total, total.
fn put_totals(out: &mut [u8], at: usize, answer: PriceAnswer)
    requires { at + 17 ≤ length out.old }
    ensures { Puts out.old at (totals_bytes answer) out.new }
{
    put_run(out, at, answer.number, 1);
    put_signed_eight(out, at + 1, answer.unit);
    put_signed_eight(out, at + 9, answer.total);
}

// They, currency, lines, unused set, its count.
fn put_answer(out: &mut [u8], at: usize, answer: PriceAnswer)
    requires { at + 33 ≤ length out.old }
    ensures { AnswerPut out.old at answer out.new }
{
    let currency = answer.currency;
    put_totals(out, at, answer);
    put_bytes(out, at + 17, &currency);
    put_eight(out, at + 20, answer.lines);
    put_four(out, at + 28, answer.unused);
    put_run(out, at + 32, answer.unused_count, 1);
}

// The caller's output is not written here, since the room is not known to be enough: the lines are kept, one question's behind the other's.
pub fn answers_to(basket: &Basket, kept: &mut [u8]) -> Answers
    requires { Held basket.now }
    ensures { AnswersAre basket.now.book.now basket.now.questions.now kept.new result }
{
    let mut bytes = [0u8; ANSWERS_SIZE];
    let mut lines = 0;
    let mut end = Some(0);
    for j in 0..basket.stretches.len() {
        let told = basket.answer(j, kept, end);
        put_answer(&mut bytes, ANSWER_SIZE * j, told.answer);
        lines += told.answer.lines as usize;
        end = told.end;
    }
    Answers { bytes, lines, end }
}
