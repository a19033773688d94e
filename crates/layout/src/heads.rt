// The head that a book, a question and a text book begin with: the length of the whole, and a version.
ghost use Rattle.std.specs.Prelude.{◌≡◌, eqb, false};
ghost use Rattle.rules.specs.Lists.{any};
ghost use Rattle.layout.specs.Ensures.{Says, head_in, book_head_ok, question_head_ok};

use crate::numbers::{four_at, is_one_of};

// The length is that of what was lent, and the version one of these, among which no layout has 0.
fn head_in(s: &[u8], versions: &[u8]) -> bool
    requires { any (eqb 0) versions.now ≡ false }
    ensures { Says (head_in versions.now s.now) result }
{
    if s.len() < 5 {
        return false;
    }
    (s.len() == four_at(s, 0)) & is_one_of(s[4], versions)
}

// A question has version 1, or 2 if its granted names have factors.
pub fn question_head_ok(s: &[u8]) -> bool
    ensures { Says (question_head_ok s.now) result }
{
    head_in(s, &[1, 2])
}

// A book and a text book have version 1, and at most 4 MB.
pub fn book_head_ok(s: &[u8]) -> bool
    ensures { Says (book_head_ok s.now) result }
{
    (s.len() <= 4_194_304) & head_in(s, &[1])
}
