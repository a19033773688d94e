// The slots of a price: three levels of 33 places.
ghost use Rattle.rules.specs.Book.{letter_of};
ghost use Rattle.layout.specs.Ensures.{Number};
ghost use Rattle.choice.specs.Slots.{level_of};

use rules::Level;

// A level has a place for rows without a condition and one for each granted name.
pub const PLACES: usize = 33;

// Base comes first, then surcharges, then discounts.
pub fn level_number(level: Level) -> usize
    ensures { Number (level_of (letter_of level)) 3 result }
{
    match level {
        Level::Base => 0,
        Level::Surcharge => 1,
        Level::Discount => 2,
    }
}
