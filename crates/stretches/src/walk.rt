// The stretches of a period, found day by day.
ghost use Rattle.std.specs.Prelude.{◌≤◌, ◌<◌, length};
ghost use Rattle.stretches.specs.Stretches.{ListsBy};

use crate::turns::{Turning, opened, turn};
use crate::{NO_STRETCH, Stretches};
use days::Day;
use rules::Outcome;

// The stretch in hand is the last of the list. The first day and the marked ones have their outcomes.
pub fn stretches_of(dates: &[u32], marks: &[bool; 1096], outcomes: &[Outcome; 1096]) -> Stretches
    requires dates_nonzero { 0 < length dates.now }
    requires dates_len_bound { length dates.now ≤ 1096 }
    ensures { ListsBy dates.now marks.now outcomes.now result }
{
    let mut list = [NO_STRETCH; 1096];
    list[0] = opened(Day(dates[0]), outcomes[0]);
    let mut n = 0;
    for i in 1..dates.len() {
        match turn(list[n], Day(dates[i]), marks[i], outcomes[i]) {
            Turning::Grown(hand) => list[n] = hand,
            Turning::Begun(next) => {
                n += 1;
                list[n] = next;
            }
        }
    }
    Stretches { list, n: n + 1 }
}
