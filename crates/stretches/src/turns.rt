// The stretch in hand, and what a day makes of it: it grows by that day, or another stretch begins.
ghost use Rattle.stretches.specs.Stretches.{Opened, Longer, TurnedBy};

use crate::Stretch;
use days::Day;
use rules::Outcome;

// The stretch in hand after a day: the one before, or one that begins on that day.
#[derive(Clone, Copy)]
pub enum Turning {
    Grown(Stretch),
    Begun(Stretch),
}

// A stretch that begins.
pub fn opened(d: Day, outcome: Outcome) -> Stretch
    ensures { Opened outcome d.0 result }
{
    Stretch {
        first: d,
        last: d,
        outcome,
    }
}

fn longer(hand: Stretch, d: Day) -> Stretch
    ensures { Longer hand d.0 result }
{
    Stretch { last: d, ..hand }
}

// One day more. Only a day of change was priced; on any other the outcome stays.
pub fn turn(hand: Stretch, d: Day, due: bool, outcome: Outcome) -> Turning
    ensures { TurnedBy hand d.0 due outcome result }
{
    if due && hand.outcome != outcome {
        Turning::Begun(opened(d, outcome))
    } else {
        Turning::Grown(longer(hand, d))
    }
}
