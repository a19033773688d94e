// The choice of every row of a price at once: one walk over the records fills a slot for each level and place.
#![tactic(auto)]

mod block;
pub mod hands;
pub mod noted;
mod passing;
pub mod rows;
pub mod slots;

ghost use Rattle.rules.specs.Book.{rows};
ghost use Rattle.layout.specs.Records.{records_left, Between};
ghost use Rattle.choice.specs.Walk.{InSlot, going, SlotsFor};
ghost use Rattle.choice.specs.Block.{TookIn, AllStand, SlotsAfter, SharedOn, SharedFor};

use crate::block::{Through, record_through};
use crate::hands::{Passing, Seen, see};
use crate::noted::{MOST_NOTED, Noted};
use crate::passing::passing;
use book::record_stop;
use days::Day;
use grants::asking::Asking;

// A slot for each level and place: slot 33 * level + place, for 3 levels of 33 places each.
pub const SLOTS: usize = 99;

// The slots once a record has gone by, as the row that it is to a question, or as none.
fn take_in(slots: &mut [Seen; SLOTS], p: Option<Passing>)
    requires { InSlot p }
    ensures { TookIn slots.old (going p) slots.new }
{
    if let Some(p) = p {
        let old = slots[p.slot];
        slots[p.slot] = see(old, Some(p));
    }
}

// The records of w from `from` on, each once. w is a book, or the front part of one.
pub fn slots_for(w: &[u8], from: usize, asking: &Asking) -> [Seen; SLOTS]
    requires { Between w.now from }
    ensures { SlotsFor w.now (rows (records_left w.now from)) asking.now.article.now asking.now.table.now asking.now.terms result }
{
    let mut slots = [Seen::NOTHING; SLOTS];
    let mut at = from;
    while at < w.len() {
        let end = record_stop(w, at);
        let p = passing(&w[at + 2..end], at, asking);
        take_in(&mut slots, p);
        at = end;
    }
    slots
}

// What the slots keep of the rows that are the same on all days of a block, and the others.
#[derive(Clone, Copy)]
pub struct Shared {
    pub slots: [Seen; SLOTS],
    pub noted: Noted,
}

impl Shared {
    ghost use Rattle.choice.specs.Block.{passing_through, is_noted, InSlotThrough, TookThrough};

    pub const NOTHING: Shared = Shared {
        slots: [Seen::NOTHING; SLOTS],
        noted: Noted::NONE,
    };

    // The record that stands at `at` goes by.
    fn take_in(&mut self, at: usize, x: Through)
        requires { InSlotThrough x }
        ensures { TookThrough self.old at x self.new }
    {
        match x {
            Through::Never => (),
            Through::Always(p) => take_in(&mut self.slots, Some(p)),
            Through::Sometimes => self.noted.push(at),
        }
    }
}

// The same walk once for all days from the one that is asked for to the last.
pub fn shared_for(w: &[u8], from: usize, asking: &Asking, last: Day, shared: &mut Shared)
    requires { Between w.now from }
    ensures { SharedFor w.now from asking.now.article.now asking.now.table.now asking.now.terms last.0 shared.new }
{
    let slots = [Seen::NOTHING; SLOTS];
    shared.slots = slots;
    shared.noted.n = 0;
    let mut at = from;
    while at < w.len() {
        let end = record_stop(w, at);
        let x = record_through(&w[at + 2..end], at, asking, last);
        shared.take_in(at, x);
        at = end;
    }
}

// The slots once the noted rows have gone by too.
fn slots_after(w: &[u8], shared: &[Seen; SLOTS], noted: &[usize], asking: &Asking) -> [Seen; SLOTS]
    requires { AllStand w.now noted.now }
    ensures { SlotsAfter w.now shared.now noted.now asking.now.article.now asking.now.table.now asking.now.terms result }
{
    let mut slots = *shared;
    for at in noted {
        let end = record_stop(w, *at);
        let p = passing(&w[*at + 2..end], *at, asking);
        take_in(&mut slots, p);
    }
    slots
}

// The slots of a day of the block. Where more rows came than are noted, by a walk of its own.
pub fn slots_on(w: &[u8], from: usize, asking: &Asking, shared: &Shared) -> [Seen; SLOTS]
    requires between { Between w.now from }
    requires shared_on { SharedOn w.now from asking.now.article.now asking.now.table.now asking.now.terms shared.now }
    ensures { SlotsFor w.now (rows (records_left w.now from)) asking.now.article.now asking.now.table.now asking.now.terms result }
{
    if MOST_NOTED < shared.noted.n {
        return slots_for(w, from, asking);
    }
    slots_after(
        w,
        &shared.slots,
        &shared.noted.rows[..shared.noted.n],
        asking,
    )
}
