// The outcomes of the first day and of the days of change. Days are taken in blocks: what those of a block share is found in one walk.
#![tactic(auto)]

ghost use Rattle.std.specs.Prelude.{◌≤◌, ◌<◌, length, take};
ghost use Rattle.grants.specs.Asks.{Asked, terms_on};
ghost use Rattle.choice.specs.Block.{SharedOn};
ghost use Rattle.survey.specs.Window.{Windows};
ghost use Rattle.period.specs.Positions.{Dates};
ghost use Rattle.outcomes.specs.Outcomes.{BlockEnd, BlockFrom, BlockAt, PricedFor, NextDue, OutcomesFor};

use choice::{Shared, shared_for};
use days::Day;
use grants::asking::Asking;
use quote::outcome_on;
use rules::{Cents, Currency, Outcome};
use survey::window::Window;

// So many days are a block.
const BLOCK: usize = 32;

const NO_OUTCOME: Outcome = Outcome {
    unit: Cents(0),
    refusal: 0,
    currency: Currency(0, 0, 0),
};

// What the days of a block share, up to the date before `until`.
#[derive(Clone, Copy)]
pub struct Block {
    pub shared: Shared,
    pub until: usize,
}

impl Block {
    // Of no days.
    const NONE: Block = Block {
        shared: Shared::NOTHING,
        until: 0,
    };
}

// Behind the last date of the block that begins at i.
fn block_end(i: usize, days: usize) -> usize
    requires { i < days }
    ensures { BlockEnd i days result }
{
    if days - i < BLOCK { days } else { i + BLOCK }
}

// The block that begins at i.
fn block_from(b: &[u8], w: Window, asking: &Asking, dates: &[u32], i: usize, block: &mut Block)
    requires asked { Asked asking.now.article.now asking.now.table.now asking.now.terms }
    requires windows { Windows b.now 5 asking.now.article.now asking.now.terms.sort w }
    requires dates { Dates dates.now }
    requires i_in_bounds { i < length dates.now }
    ensures { BlockAt b.now w asking.now.article.now asking.now.table.now asking.now.terms dates.now i block.new }
{
    let until = block_end(i, dates.len());
    let own = w.spans.rows;
    let first = asking.on(Day(dates[i]));
    shared_for(
        &b[..own.last],
        own.first,
        &first,
        Day(dates[until - 1]),
        &mut block.shared,
    );
    block.until = until;
}

// A block that has the date at i: the one in hand, or another that begins there.
fn block_at(b: &[u8], w: Window, asking: &Asking, dates: &[u32], i: usize, block: &mut Block)
    requires asked { Asked asking.now.article.now asking.now.table.now asking.now.terms }
    requires windows { Windows b.now 5 asking.now.article.now asking.now.terms.sort w }
    requires dates { Dates dates.now }
    requires i_in_bounds { i < length dates.now }
    requires block_from { BlockFrom b.now w asking.now.article.now asking.now.table.now asking.now.terms dates.now i block.old }
    ensures { BlockAt b.now w asking.now.article.now asking.now.table.now asking.now.terms dates.now i block.new }
{
    if block.until <= i {
        block_from(b, w, asking, dates, i, block);
    }
}

// A day is priced: no other function does.
fn priced(b: &[u8], w: Window, asking: &Asking, d: Day, shared: &Shared) -> Outcome
    requires asked { Asked asking.now.article.now asking.now.table.now asking.now.terms }
    requires windows { Windows b.now 5 asking.now.article.now asking.now.terms.sort w }
    requires shared_on { SharedOn (take w.spans.rows.last b.now) w.spans.rows.first asking.now.article.now asking.now.table.now (terms_on asking.now.terms d.0) shared.now }
    ensures { PricedFor b.now asking.now.article.now asking.now.table.now asking.now.terms d.0 result }
{
    outcome_on(b, w, &asking.on(d), shared)
}

// The first position from i on with a mark, or that behind the last day.
fn next_due(marks: &[bool; 1096], i: usize, days: usize) -> usize
    requires within { i ≤ days }
    requires few { days ≤ 1096 }
    ensures { NextDue marks.now i result }
{
    for k in i..days {
        if marks[k] {
            return k;
        }
    }
    days
}

pub fn outcomes_of(
    b: &[u8],
    w: Window,
    asking: &Asking,
    dates: &[u32],
    marks: &[bool; 1096],
) -> [Outcome; 1096]
    requires asked { Asked asking.now.article.now asking.now.table.now asking.now.terms }
    requires windows { Windows b.now 5 asking.now.article.now asking.now.terms.sort w }
    requires dates { Dates dates.now }
    ensures { OutcomesFor b.now asking.now.article.now asking.now.table.now asking.now.terms dates.now marks.now result }
{
    let mut block = Block::NONE;
    let mut outcomes = [NO_OUTCOME; 1096];
    let mut i = 0;
    while i < dates.len() {
        block_at(b, w, asking, dates, i, &mut block);
        outcomes[i] = priced(b, w, asking, Day(dates[i]), &block.shared);
        i = next_due(marks, i + 1, dates.len());
    }
    outcomes
}
