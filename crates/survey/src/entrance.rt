// The entrance of a call on a book and a question: refusals 1 and 2, and behind them the question by value and what it asks for found in the book.
ghost use Rattle.survey.specs.Entrance.{EnteredIs};

use crate::{Found, is_book, survey};
use question::{Ask, ask_of, question_ok};
use rules::Refusal;

// The question, and what is found for it.
#[derive(Clone, Copy)]
pub struct Entered {
    pub ask: Ask,
    pub found: Found,
}

// The question is looked at first, so that the book is gone through once; a question that is none is refused only once the book is known to be one.
pub fn enter(book: &[u8], question: &[u8]) -> Result<Entered, Refusal>
    ensures { EnteredIs book.now question.now result }
{
    if !question_ok(question) {
        if is_book(book) {
            return Err(Refusal::BrokenQuestion);
        }
        return Err(Refusal::BrokenBook);
    }
    let ask = ask_of(question);
    let article = ask.article;
    let from = article.at;
    let to = from + article.size;
    match survey(book, &question[from..to], ask.sort) {
        Some(found) => Ok(Entered { ask, found }),
        None => Err(Refusal::BrokenBook),
    }
}
