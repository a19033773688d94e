// A book accepted, and what each question of a basket asks for found in it.
ghost use Rattle.questions.specs.Questions.{QuestionsHere};
ghost use Rattle.basket.specs.Located.{LocatedIs, FirstFound};

use questions::{Lent, names_in};
use survey::{Found, Sighted, is_book, survey};
use wanted::{Sights, find_all};

// What was found for the first question, as of a list of them. It stays a call of its own: the list that it makes is then not on the stack
// beside that of a walk.
#[inline(never)]
fn first_of(found: Found) -> Sights
    ensures { FirstFound found result }
{
    let window = found.window;
    let mut all = [Sighted::NOTHING; 500];
    all[0] = Sighted {
        article: found.article,
        spans: window.spans,
    };
    Sights {
        all,
        noted: window.noted,
    }
}

// If it is a book, what is found for each question. For one question the book is searched while it is accepted. For more it is gone through once
// again, for all of them together.
pub fn locate(book: &[u8], questions: &[u8], stretches: &[Lent]) -> Option<Sights>
    requires { QuestionsHere questions.now stretches.now }
    ensures { LocatedIs book.now questions.now stretches.now result }
{
    let all = names_in(questions, stretches);
    let names = &all[..stretches.len()];
    if stretches.len() == 1 {
        let name = names[0];
        let found = survey(book, &questions[name.start..name.end], name.sort)?;
        return Some(first_of(found));
    }
    if is_book(book) {
        return Some(find_all(book, questions, names));
    }
    None
}
