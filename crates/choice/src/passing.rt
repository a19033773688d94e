// What a record that goes by is to the questions that ask so.
ghost use Rattle.std.specs.Prelude.{◌&&◌, eqb};
ghost use Rattle.rules.specs.Lists.{between};
ghost use Rattle.rules.specs.Book.{base, letter_of};
ghost use Rattle.rules.specs.Days.{is_day};
ghost use Rattle.rules.specs.Layout.{whole};
ghost use Rattle.rules.specs.BookLayout.{kinded};
ghost use Rattle.rules.specs.Question.{asked_of, letters_of};
ghost use Rattle.rules.specs.Choice.{is_percent};
ghost use Rattle.layout.specs.Ensures.{Says};
ghost use Rattle.records.specs.Asks.{Accepted};
ghost use Rattle.records.specs.Ensures.{row_in, RowIs};
ghost use Rattle.choice.specs.Slots.{level_of};
ghost use Rattle.choice.specs.Walk.{slot_at, row_stands, SlotAt, in_asked, SlotIs, PlacedIs, RowPasses, Passes};

use crate::hands::{Hand, Passing};
use crate::slots::{PLACES, level_number};
use days::Day;
use grants::asking::Asking;
use grants::terms::Terms;
use grants::{NOWHERE, place_of};
use records::{is_row, row_of};
use rules::{Currency, Level, PriceRow, Value};

fn slot_at(level: Level, place: usize) -> Option<usize>
    ensures { SlotAt (slot_at (level_of (letter_of level)) place) result }
{
    if place < NOWHERE {
        Some(level_number(level) * PLACES + place)
    } else {
        None
    }
}

// The slot of a row of the asked article and sort: none if its condition is not granted.
pub fn slot_of(t: &[u8], row: PriceRow, asking: &Asking) -> Option<usize>
    requires { RowIs t.now row }
    ensures { SlotIs asking.now.table.now asking.now.terms (row_in t.now row) result }
{
    let condition = row.condition;
    let from = condition.at;
    let end = from + condition.size;
    let place = place_of(asking.table, asking.terms.names, &t[from..end]);
    slot_at(row.level, place)
}

fn is_percent(value: Value) -> bool
    ensures { Says (is_percent value) result }
{
    match value {
        Value::Fixed(_) => false,
        Value::Percent(_) => true,
    }
}

// A base row with a percentage never counts.
fn is_percent_base(level: Level, value: Value) -> bool
    ensures { Says (eqb (letter_of level) base && is_percent value) result }
{
    (level == Level::Base) & is_percent(value)
}

// Whether a row of these dates holds that day. Few do, so whether the dates are days comes last.
fn holds(from: u32, to: u32, date: Day) -> bool
    ensures { Says (is_day from && (is_day to && between from to date.0)) result }
{
    from <= date.0 && date.0 <= to && Day::is_day(from) && Day::is_day(to)
}

// Whether a row is in the asked currency. With three zeros none is asked.
fn is_asked(asked: Currency, currency: Currency) -> bool
    ensures { Says (in_asked (asked_of (letters_of asked)) (letters_of currency)) result }
{
    (asked != Currency(0, 0, 0)) & (currency == asked)
}

// Whether a row of the asked article and sort counts that day.
pub fn counts(row: PriceRow, date: Day) -> bool
    ensures { Says (row_stands date.0 row) result }
{
    !is_percent_base(row.level, row.value) & holds(row.from, row.to, date)
}

// A row that counts that day, once its slot is found; its record stands at `at`.
pub fn placed(row: PriceRow, at: usize, slot: usize, terms: Terms) -> Passing
    ensures { PlacedIs terms at slot row result }
{
    Passing {
        slot,
        asked: is_asked(terms.currency, row.currency),
        reaches: (row.upto == 0) | (terms.quantity <= row.upto),
        hand: Hand {
            at,
            upto: row.upto,
            from: row.from,
            rounding: row.rounding,
        },
    }
}

// A row of the asked article and sort, whose record stands at `at`, if it counts that day. Few hold then: only of these the condition is looked for.
// It stays a call of its own, so that the loop of a walk, which passes most records over, has nothing of it in it.
#[inline(never)]
pub fn row_passing(t: &[u8], row: PriceRow, at: usize, asking: &Asking) -> Option<Passing>
    requires { RowIs t.now row }
    ensures { RowPasses asking.now.table.now asking.now.terms at (row_in t.now row) result }
{
    if !counts(row, asking.terms.date) {
        return None;
    }
    let slot = slot_of(t, row, asking)?;
    Some(placed(row, at, slot, asking.terms))
}

// The record that stands at `at` and has the body t. Most are no row of the article and sort: of these the kind, the name and one byte are read.
pub fn passing(t: &[u8], at: usize, asking: &Asking) -> Option<Passing>
    requires { Accepted t.now }
    ensures { Passes asking.now.article.now asking.now.table.now asking.now.terms at (whole kinded t.now) result }
{
    if is_row(t, asking.article, asking.terms.sort) {
        row_passing(t, row_of(t), at, asking)
    } else {
        None
    }
}
