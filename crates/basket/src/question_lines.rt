// The lines of all questions of a basket, one question's behind the other's.
ghost use Rattle.layout.specs.Ensures.{PutsTo};
ghost use Rattle.price.specs.Answered.{HasRoom};
ghost use Rattle.basket.specs.Held.{Held};
ghost use Rattle.basket.specs.Basket.{Kept, all_lines};

use crate::asked::Basket;
use layout::strings::put_bytes;

// From `at` on, by pricing each question once more; and where they end.
fn put_all_lines(basket: &Basket, out: &mut [u8], at: usize) -> usize
    requires held { Held basket.now }
    requires has_room { HasRoom out.old at (all_lines basket.now.book.now basket.now.questions.now) }
    ensures { PutsTo out.old at (all_lines basket.now.book.now basket.now.questions.now) out.new result }
{
    let mut end = Some(at);
    for j in 0..basket.stretches.len() {
        let told = basket.answer(j, out, end);
        end = told.end;
    }
    end.unwrap_or(at)
}

// From `at` on: those that were kept. Where they were too many to be kept, all of them anew. And where they end.
pub fn put_lines(
    basket: &Basket,
    out: &mut [u8],
    at: usize,
    kept: &[u8],
    end: Option<usize>,
) -> usize
    requires held { Held basket.now }
    requires has_room { HasRoom out.old at (all_lines basket.now.book.now basket.now.questions.now) }
    requires kept { Kept kept.now end (all_lines basket.now.book.now basket.now.questions.now) }
    ensures { PutsTo out.old at (all_lines basket.now.book.now basket.now.questions.now) out.new result }
{
    if let Some(end) = end {
        return put_bytes(out, at, &kept[..end]);
    }
    put_all_lines(basket, out, at)
}
