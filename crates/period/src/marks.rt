// The days of a period on which the price of an article can change, marked in one walk over its rows.
ghost use Rattle.rules.specs.Layout.{whole};
ghost use Rattle.rules.specs.BookLayout.{kinded};
ghost use Rattle.layout.specs.Records.{Between};
ghost use Rattle.records.specs.Asks.{Accepted};
ghost use Rattle.period.specs.Positions.{Dates};
ghost use Rattle.period.specs.Marks.{DatesChange, RecordChanges, DateMarked, ChangeMarked, MarksAre};

use crate::dates::MOST_DAYS;
use book::record_stop;
use days::Day;
use records::{is_row, row_of};

// The day on which a row begins to hold, and the first on which it no longer does.
#[derive(Clone, Copy)]
pub struct Change {
    pub begins: u32,
    pub over: u32,
}

// A row of these dates: nothing, unless they are days.
fn change_by(from: u32, to: u32) -> Option<Change>
    ensures { DatesChange from to result }
{
    if Day::is_day(from) & Day::is_day(to) {
        Some(Change {
            begins: from,
            over: Day(to).next().0,
        })
    } else {
        None
    }
}

// What the record t changes: nothing, unless it is a row of the article and sort.
fn change_of(t: &[u8], article: &[u8], sort: u8) -> Option<Change>
    requires { Accepted t.now }
    ensures { RecordChanges article.now sort (whole kinded t.now) result }
{
    if is_row(t, article, sort) {
        let row = row_of(t);
        change_by(row.from, row.to)
    } else {
        None
    }
}

// The day d is marked, if it is one of the dates.
fn mark(marks: &mut [bool; MOST_DAYS], dates: &[u32], d: u32)
    requires { Dates dates.now }
    ensures { DateMarked dates.now d marks.old marks.new }
{
    if let Ok(i) = dates.binary_search(&d) {
        marks[i] = true;
    }
}

// The days of a change are marked.
fn mark_change(marks: &mut [bool; MOST_DAYS], dates: &[u32], change: Option<Change>)
    requires { Dates dates.now }
    ensures { ChangeMarked dates.now change marks.old marks.new }
{
    if let Some(change) = change {
        mark(marks, dates, change.begins);
        mark(marks, dates, change.over);
    }
}

// A mark for each of the dates, in their order.
pub fn marks_of(w: &[u8], from: usize, article: &[u8], sort: u8, dates: &[u32]) -> [bool; MOST_DAYS]
    requires between { Between w.now from }
    requires dates { Dates dates.now }
    ensures { MarksAre w.now from article.now sort dates.now result }
{
    let mut marks = [false; MOST_DAYS];
    let mut at = from;
    while at < w.len() {
        let end = record_stop(w, at);
        let change = change_of(&w[at + 2..end], article, sort);
        mark_change(&mut marks, dates, change);
        at = end;
    }
    marks
}
