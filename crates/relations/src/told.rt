// What reading tells: what was read, or the refusal and where the byte stands that it tells.
ghost use Rattle.std.specs.Prelude.{◌≡◌};
ghost use Rattle.relations.specs.Told.{bad_relation};

use relation_truth::Truth;
use relation_words::tokens::{Kind, Stop};
use rules::Refusal;

// Read up to `to`; the truth is that of what was read.
#[derive(Clone, Copy)]
pub struct Read {
    pub to: usize,
    pub truth: Truth,
}

// The byte that may not come stands at `at`.
#[derive(Clone, Copy, PartialEq, Eq)]
pub struct Refused {
    pub refusal: Refusal,
    pub at: usize,
}

impl From<Stop> for Refused {
    ghost from_gives = { λ e r. r ≡ bad_relation e.at };

    fn from(stop: Stop) -> Refused {
        Refused {
            refusal: Refusal::BadRelation,
            at: stop.at,
        }
    }
}
