// A basket, handed on as one: a book and questions, with what was found for each question. That they belong together (`Basketed`) is asked by a clause:
// as a ghost field it does not prove, since it lists the spots of the roundings, and that is no proposition to the checker.

use price::answered::{Answered, answer_to};
use questions::Lent;
use wanted::Sights;

// The book is one, and a question stands in each of the stretches.
#[derive(Clone, Copy)]
pub struct Basket<'a> {
    pub book: &'a [u8],
    pub questions: &'a [u8],
    pub stretches: &'a [Lent],
    pub found: &'a Sights,
}

impl<'a> Basket<'a> {
    ghost use Rattle.std.specs.Prelude.{◌<◌, length};
    ghost use Rattle.layout.specs.Records.{records_left};
    ghost use Rattle.price.specs.Answered.{AnsweredIs};
    ghost use Rattle.basket.specs.Basket.{question_at};
    ghost use Rattle.basket.specs.Held.{Held};

    // Question j is answered as if it were alone, with its lines from `start` on.
    pub fn answer(&self, j: usize, out: &mut [u8], start: Option<usize>) -> Answered
        requires held { Held self.now }
        requires j_in { j < length self.now.stretches.now }
        ensures { AnsweredIs (records_left self.now.book.now 5) (question_at self.now.questions.now self.now.stretches.now j) out.old start out.new result }
    {
        let lent = self.stretches[j];
        let question = &self.questions[lent.start..lent.end];
        answer_to(self.book, question, self.found.get(j), out, start)
    }
}
