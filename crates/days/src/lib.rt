// Days of the calendar: a number yyyymmdd that is a day, and the day after it ("The price book", "Calendar").
#![tactic(auto)]

ghost use Rattle.std.specs.Prelude.{◌≤◌, ◌≡◌, true, cond};
ghost use Rattle.rules.specs.Days.{first_day, last_day, leap, days_in, is_day, next};

// A day, by its number yyyymmdd.
#[repr(C)]
#[derive(Clone, Copy, PartialEq, Eq, PartialOrd, Ord)]
pub struct Day(pub u32);

// Every fourth year is a leap year, but of the full hundreds only every fourth.
fn february(year: u32) -> u32
    ensures { result ≡ cond (leap year) 29 28 }
{
    if (year % 4 == 0) & (year % 100 != 0) | (year % 400 == 0) {
        29
    } else {
        28
    }
}

fn days_in(year: u32, month: u32) -> u32
    requires { (1 ≤ month) × (month ≤ 12) }
    ensures { result ≡ days_in year month }
{
    let months = [31, february(year), 31, 30, 31, 30, 31, 31, 30, 31, 30, 31];
    months[month as usize - 1]
}

impl Day {
    pub const FIRST: Day = Day(10101);

    pub const LAST: Day = Day(99991231);

    // The two constants are the ends of the calendar.
    pub fn first() -> Day
        ensures { result.0 ≡ first_day }
    {
        Day::FIRST
    }

    pub fn last() -> Day
        ensures { result.0 ≡ last_day }
    {
        Day::LAST
    }

    // Whether a number is a day: any number may be asked, as a caller's dates are only that.
    pub fn is_day(n: u32) -> bool
        ensures { result ≡ is_day n }
    {
        let year = n / 10000;
        let month = n / 100 % 100;
        let day = n % 100;
        if month < 1 {
            return false;
        }
        if 12 < month {
            return false;
        }
        (Day::FIRST.0 <= n) & (n <= Day::LAST.0) & ((1 <= day) & (day <= days_in(year, month)))
    }

    // The day after. Behind the last day comes 100000101, no day and above every day: so every row has a number for
    // "the day after its to date".
    pub fn next(self) -> Day
        requires { is_day self.0 ≡ true }
        ensures { result.0 ≡ next self.0 }
    {
        let n = self.0;
        let year = n / 10000;
        let month = n / 100 % 100;
        let day = n % 100;
        if day < days_in(year, month) {
            return Day(n + 1);
        }
        if month < 12 {
            return Day(year * 10000 + (month + 1) * 100 + 1);
        }
        Day((year + 1) * 10000 + 101)
    }
}
