// The longest stretches of days with one outcome, found day by day: only the first day and days of change are priced.
#![tactic(auto)]

pub mod asked;
mod turns;
mod walk;

ghost use Rattle.std.specs.Prelude.{◌≡◌, take};

use days::Day;
use rules::{Cents, Currency, Outcome};

// Days in a row with one outcome. Its bytes are those of the record that a caller lends a list of.
#[repr(C)]
#[derive(Clone, Copy)]
pub struct Stretch {
    pub first: Day,
    pub last: Day,
    pub outcome: Outcome,
}

pub const NO_STRETCH: Stretch = Stretch {
    first: Day(0),
    last: Day(0),
    outcome: Outcome {
        unit: Cents(0),
        refusal: 0,
        currency: Currency(0, 0, 0),
    },
};

// The first n of the list count; behind them stand empty ones, which are no stretch of any days.
// As it is: an array with its count, since the library takes no heap.
#[derive(Clone, Copy)]
pub struct Stretches {
    pub list: [Stretch; 1096],
    pub n: usize,
}

impl Stretches {
    pub fn as_slice(&self) -> &[Stretch]
        ensures { result.now ≡ take self.now.n self.now.list }
    {
        &self.list[..self.n.min(self.list.len())]
    }
}
