// The price call: refusals 1, 2, 3, 4, 5, 6, 7 in that order, and the lines at the front of the lent output.
ghost use Rattle.std.specs.Prelude.{MatchResult};
ghost use Rattle.price.specs.Call.{PriceIs, PriceRefused};

use crate::answered::answer_at;
use rules::{PriceAnswer, Refusal};
use survey::entrance::enter;

// No byte is written before all seven are tested.
fn priced(book: &[u8], question: &[u8], out: &mut [u8]) -> Result<PriceAnswer, Refusal>
    ensures { MatchResult result (λ a. PriceIs book.now question.now out.old a out.new)
        (λ x. PriceRefused book.now question.now out.old x out.new) }
{
    let entered = enter(book, question)?;
    let told = answer_at(book, question, entered.ask, entered.found, out, Some(0))?;
    match told.end {
        Some(_) => Ok(told.answer),
        None => Err(Refusal::ShortOutput),
    }
}

pub fn price(book: &[u8], question: &[u8], out: &mut [u8]) -> PriceAnswer
    ensures { PriceIs book.now question.now out.old result out.new }
{
    match priced(book, question, out) {
        Ok(answer) => answer,
        Err(reason) => PriceAnswer::from(reason),
    }
}
