// What a caller reads of a call that is refused: the number of the reason, and zeros.
ghost use Rattle.std.specs.Prelude.{◌≡◌};

use crate::{
    CalendarAnswer, PackagingAnswer, PlacedAnswer, PriceAnswer, Refusal, TextAnswer, Written,
};

impl From<Refusal> for PriceAnswer {
    ghost use Rattle.rules.specs.Reasons.{RefusedPrice};

    ghost from_gives = { RefusedPrice };

    fn from(refusal: Refusal) -> PriceAnswer {
        PriceAnswer {
            unit: 0,
            total: 0,
            lines: 0,
            unused: 0,
            unused_count: 0,
            number: u8::from(refusal),
            currency: [0, 0, 0],
        }
    }
}

impl From<Refusal> for CalendarAnswer {
    ghost use Rattle.rules.specs.Reasons.{RefusedCalendar};

    ghost from_gives = { RefusedCalendar };

    fn from(refusal: Refusal) -> CalendarAnswer {
        let number = u8::from(refusal);
        CalendarAnswer { length: 0, number }
    }
}

impl From<Refusal> for Written {
    ghost use Rattle.rules.specs.Reasons.{RefusedWriting};

    ghost from_gives = { RefusedWriting };

    fn from(refusal: Refusal) -> Written {
        let number = u8::from(refusal);
        Written { length: 0, number }
    }
}

impl From<Refusal> for PackagingAnswer {
    ghost use Rattle.rules.specs.Reasons.{RefusedPackaging};

    ghost from_gives = { RefusedPackaging };

    fn from(refusal: Refusal) -> PackagingAnswer {
        PackagingAnswer {
            gross: 0,
            values: [0; 8],
            number: u8::from(refusal),
            present: 0,
            units: [0; 9],
        }
    }
}

impl From<Refusal> for TextAnswer {
    ghost use Rattle.rules.specs.Reasons.{RefusedText};

    ghost from_gives = { RefusedText };

    fn from(refusal: Refusal) -> TextAnswer {
        TextAnswer {
            place: 0,
            length: 0,
            number: u8::from(refusal),
            book: 0,
        }
    }
}

impl PlacedAnswer {
    ghost use Rattle.rules.specs.Reasons.{refused_at};

    // Beside the number stands the place that the refusal has, from 1; or 0.
    pub fn refused(refusal: Refusal, place: usize) -> PlacedAnswer
        ensures { result ≡ refused_at refusal place }
    {
        PlacedAnswer {
            length: 0,
            place: place as u64,
            number: u8::from(refusal),
        }
    }
}
