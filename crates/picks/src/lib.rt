// The chosen rows of a price by value, slot after slot, with their roundings: these stand at noted spots, or one walk has found them.
#![tactic(auto)]

pub mod chosen;
mod held;

ghost use Rattle.std.specs.Prelude.{◌≤◌, take, length};
ghost use Rattle.rules.specs.Question.{most_factor};
ghost use Rattle.lookup.specs.Roundings.{SpotsFound};
ghost use Rattle.grants.specs.Asks.{Asked};
ghost use Rattle.choice.specs.Block.{SharedOn};
ghost use Rattle.survey.specs.Window.{Windows};
ghost use Rattle.choice.specs.Hands.{RowStands};
ghost use Rattle.picks.specs.Picks.{RoundingsIn, RowFound, RowPicked, Filled, PicksFrom, PickedFor};

use crate::held::held_in;
use choice::hands::Seen;
use choice::rows::row_at;
use choice::{SLOTS, Shared, slots_for, slots_on};
pub use chosen::Picks;
use grants::asking::Asking;
use grants::factor_at;
use lines::Pick;
use lookup::roundings::{rounding_at, rounding_spots, spots_among};
use rules::{Cents, Currency, Level, Rounding, Rule, Value, Way};
use survey::window::{MANY, Window};

const NONE: Pick = Pick {
    rounding: Rounding {
        number: 0,
        way: Way::Down,
        step: 0,
        before: Cents(0),
        after: Cents(0),
    },
    value: Value::Fixed(Cents(0)),
    text: 0,
    factor: 0,
    place: 0,
    level: Level::Base,
    rule: Rule::OfBase,
    currency: Currency(0, 0, 0),
};

// The row that stands at `at`, with the rounding that was found at `found`, for a granted name at `place` that has this factor.
fn row_pick(b: &[u8], at: usize, place: u8, factor: u16, found: usize) -> Pick
    requires row_stands { RowStands b.now at }
    requires row_found { RowFound b.now at found }
    requires factor_le_most_factor { factor ≤ most_factor }
    ensures { RowPicked b.now at place factor result }
{
    let row = row_at(b, at);
    Pick {
        rounding: rounding_at(b, found),
        value: row.value,
        text: row.text,
        factor,
        place,
        level: row.level,
        rule: row.rule,
        currency: row.currency,
    }
}

// Where the roundings of the numbers stand: few were noted while the book was accepted, many are walked for.
fn spots_of(b: &[u8], window: Window, numbers: &[u16]) -> [usize; 99]
    requires roundings_in { RoundingsIn b.now window }
    requires numbers_len { length numbers.now ≤ 99 }
    ensures { SpotsFound b.now 5 numbers.now (length numbers.now) result }
{
    let noted = window.noted;
    if noted.count < MANY {
        return spots_among(b, &noted.spots[..noted.count], numbers);
    }
    let to = window.spans.roundings.last;
    rounding_spots(&b[..to], window.spans.roundings.first, numbers)
}

// The rows that the filled slots hold, one after the other.
fn picks_from(b: &[u8], slots: &[Seen; SLOTS], window: Window, asking: &Asking) -> Picks
    requires { Filled b.now slots.now asking.now.terms.names asking.now.table.now window }
    ensures { PicksFrom b.now slots.now asking.now.terms.names asking.now.table.now result }
{
    let held = held_in(slots, asking.terms.names);
    let n = held.n;
    let spots = spots_of(b, window, &held.numbers[..n]);
    let mut rows = [NONE; 99];
    for i in 0..n {
        let place = held.places[i];
        let factor = factor_at(asking.table, place as usize);
        rows[i] = row_pick(b, held.ats[i], place, factor, spots[i]);
    }
    Picks { rows, n }
}

// By a walk over the window of the article and sort.
pub fn picks_within(b: &[u8], window: Window, asking: &Asking) -> Picks
    requires asked { Asked asking.now.article.now asking.now.table.now asking.now.terms }
    requires windows { Windows b.now 5 asking.now.article.now asking.now.terms.sort window }
    ensures { PickedFor b.now asking.now.article.now asking.now.table.now asking.now.terms result }
{
    let own = window.spans.rows;
    let slots = slots_for(&b[..own.last], own.first, asking);
    picks_from(b, &slots, window, asking)
}

// The same on a day of a block, by what its days share.
pub fn picks_on(b: &[u8], window: Window, asking: &Asking, shared: &Shared) -> Picks
    requires asked { Asked asking.now.article.now asking.now.table.now asking.now.terms }
    requires windows { Windows b.now 5 asking.now.article.now asking.now.terms.sort window }
    requires shared_on { SharedOn (take window.spans.rows.last b.now) window.spans.rows.first asking.now.article.now asking.now.table.now asking.now.terms shared.now }
    ensures { PickedFor b.now asking.now.article.now asking.now.table.now asking.now.terms result }
{
    let own = window.spans.rows;
    let slots = slots_on(&b[..own.last], own.first, asking, shared);
    picks_from(b, &slots, window, asking)
}
