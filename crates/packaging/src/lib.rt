// Packaging data of an article: which packaging records a question uses, and what they come to.
#![tactic(auto)]

mod spots;
mod sums;

ghost use Rattle.std.specs.Prelude.{◌≡◌, true};
ghost use Rattle.rules.specs.Lists.{is_some};
ghost use Rattle.rules.specs.BookLayout.{records};
ghost use Rattle.rules.specs.Question.{question_of};
ghost use Rattle.rules.specs.Packaging.{packaging, shown};
ghost use Rattle.packed.specs.Answer.{written};
ghost use Rattle.packaging.specs.Spots.{FoundHeld};
ghost use Rattle.packaging.specs.Sums.{AnswersFrom};

use crate::spots::{Found, walk};
use crate::sums::add_up;
use grants::grants_of;
use packed::answer::answer_of;
use records::bytes_of;
use rules::{PackagingAnswer, Refusal};

// Of the spots that the walk found. An article without a record that has no condition is refused.
fn from_spots(b: &[u8], found: &Found) -> Result<PackagingAnswer, Refusal>
    requires { FoundHeld b.now found.now }
    ensures { AnswersFrom b.now found.now.own found.now.any result }
{
    if found.own[0].is_none() {
        return Err(Refusal::NoPackaging);
    }
    let sums = add_up(b, found)?;
    answer_of(sums)
}

// Of an accepted book and an accepted question. The granted names are made into a table once, for all records.
fn answered(b: &[u8], q: &[u8]) -> Result<PackagingAnswer, Refusal>
    requires b_value { is_some (records b.now) ≡ true }
    requires q_value { is_some (question_of q.now) ≡ true }
    ensures { written result ≡ shown (packaging b.now q.now) }
{
    let ask = question::ask_of(q);
    let names = ask.conditions;
    let table = grants_of(q, ask.granted, names, ask.version);
    let found = walk(b, bytes_of(q, ask.article), &table, names)?;
    from_spots(b, &found)
}

fn tested(book: &[u8], question: &[u8]) -> Result<PackagingAnswer, Refusal>
    ensures { written result ≡ shown (packaging book.now question.now) }
{
    if !survey::is_book(book) {
        return Err(Refusal::BrokenBook);
    }
    if !question::question_ok(question) {
        return Err(Refusal::BrokenQuestion);
    }
    answered(book, question)
}

// The packaging data of a question's article. Any bytes are taken: what is no book, no question, or has no answer is refused by its number.
pub fn packaging(book: &[u8], question: &[u8]) -> PackagingAnswer
    ensures { result ≡ shown (packaging book.now question.now) }
{
    match tested(book, question) {
        Ok(answer) => answer,
        Err(reason) => PackagingAnswer::from(reason),
    }
}
