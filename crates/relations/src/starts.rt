// Where a single condition starts, behind the NOTs in front of it.
ghost use Rattle.std.specs.Prelude.{◌≡◌, ◌≤◌, length};
ghost use Rattle.relations.specs.Starts.{StartRead};

use crate::expected::{CONDITION, word_of};
use crate::told::Refused;
use relation_words::bytes::blanks;
use relation_words::tokens::{Token, token_here};
use rules::Refusal;

// A parenthesis, or another token that is no NOT.
#[derive(Clone, Copy)]
pub enum First {
    Parenthesis,
    Token(Token),
}

// Behind the last NOT, at `at`, and behind blanks, at `from`, stands the first token. `turned`: the NOTs are odd in number.
#[derive(Clone, Copy)]
pub struct Start {
    pub at: usize,
    pub from: usize,
    pub turned: bool,
    pub first: First,
}

pub fn start_of(text: &[u8], at: usize) -> Result<Start, Refused>
    requires { at ≤ length text.now }
    ensures { StartRead text.now at result }
{
    let mut behind = at;
    let mut turned = false;
    loop {
        let from = blanks(text, behind);
        if text.len() <= from {
            return Err(Refused {
                refusal: Refusal::BadRelation,
                at: from,
            });
        }
        if text[from] == b'(' {
            return Ok(Start {
                at: behind,
                from,
                turned,
                first: First::Parenthesis,
            });
        }
        let first = token_here(text, from, CONDITION)?;
        if word_of(first.kind) != 1 {
            return Ok(Start {
                at: behind,
                from,
                turned,
                first: First::Token(first),
            });
        }
        behind = first.to;
        turned = !turned;
    }
}
