// The days of a period, one behind the other, and those of them on which the price of an article can change.
#![tactic(auto)]

pub mod dates;
pub mod marks;

ghost use Rattle.std.specs.Prelude.{◌≡◌, true};
ghost use Rattle.rules.specs.Days.{is_day};
ghost use Rattle.period.specs.Ensures.{PeriodIs};

use crate::dates::MOST_DAYS;
pub use dates::Period;
use days::Day;

// The days from `start` to `end`, both among them, if they are at most 1,096.
pub fn period_to(start: Day, end: u32) -> Option<Period>
    requires { is_day start.0 ≡ true }
    ensures { PeriodIs start.0 end result }
{
    if !Day::is_day(end) {
        return None;
    }
    if end < start.0 {
        return None;
    }
    let mut dates = [0; MOST_DAYS];
    let mut d = start;
    for n in 0..MOST_DAYS {
        dates[n] = d.0;
        if d.0 == end {
            return Some(Period { dates, n: n + 1 });
        }
        d = d.next();
    }
    None
}
