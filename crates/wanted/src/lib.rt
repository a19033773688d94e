// The wanted list: up to 500 articles looked for in one walk over a book.
#![tactic(auto)]

mod entries;
mod last;
mod marks;
mod table;

ghost use Rattle.std.specs.Prelude.{◌≡◌, ◌<◌, true, length, IfSome};
ghost use Rattle.rules.specs.Lists.{is_some};
ghost use Rattle.rules.specs.Layout.{whole};
ghost use Rattle.rules.specs.BookLayout.{kinded, records};
ghost use Rattle.records.specs.Asks.{Accepted};
ghost use Rattle.questions.specs.Questions.{Listed};
ghost use Rattle.wanted.specs.Entries.{EntriesAfter, SeenAll, ToldAll, found_for, FoundAll};

use crate::entries::{Entry, roundings_after};
use crate::last::Last;
use crate::table::Table;
use book::record_stop;
use questions::Name;
use survey::window::{Noted, Span};
use survey::{Found, Sighted};

// What was kept of the article of each name on the list, and what was noted of the roundings, once for all of them.
#[derive(Clone, Copy)]
pub struct Sights {
    pub all: [Sighted; 500],
    pub noted: Noted,
}

impl Sights {
    // What is found of the name at rank j.
    pub fn get(&self, j: usize) -> Found
        requires { j < 500 }
        ensures { result ≡ found_for self.now j }
    {
        self.all[j].found(self.noted)
    }
}

// Of each rank on the list what was seen of its article, and where the roundings stand.
#[derive(Drop)]
struct Sightings {
    entries: [Entry; 500],
    roundings: Span,
    noted: Noted,
}

// Behind the header, and still empty.
const START: Span = Span { first: 5, last: 5 };

const UNSEEN: Entry = Entry {
    found: false,
    sale: START,
    purchase: START,
};

// The record t, from `at` to `end`, has gone by: its article's entry keeps that, if the article has a rank on the list.
fn keep(entries: &mut [Entry; 500], rank: Option<usize>, t: &[u8], at: usize, end: usize)
    requires rank_in { IfSome rank (λ i. i < 500) }
    requires entries_len { length entries.old ≡ 500 }
    requires accepted { Accepted t.now }
    ensures { EntriesAfter entries.old rank (whole kinded t.now) at end entries.new }
{
    if let Some(i) = rank {
        let old = entries[i];
        entries[i] = old.seen(t, at, end);
    }
}

// Each record of the book once. It stays a call of its own, as `tell` does, so that its lists are not on the stack twice.
#[inline(never)]
fn walk(b: &[u8], table: &Table) -> Sightings
    requires { is_some (records b.now) ≡ true }
    ensures { SeenAll b.now table.now.bytes.now table.now.names.now (length table.now.names.now) result.entries result.roundings result.noted }
{
    let mut entries = [UNSEEN; 500];
    let mut roundings = START;
    let mut noted = Noted::NONE;
    let mut last = Last::first(b, table);
    let mut at = 5;
    while at < b.len() {
        let end = record_stop(b, at);
        let start = at + 2;
        last = last.after(b, start, end, table);
        let t = &b[start..end];
        keep(&mut entries, last.rank, t, at, end);
        roundings = roundings_after(roundings, t, at, end);
        noted.note_spot(t, at);
        at = end;
    }
    Sightings {
        entries,
        roundings,
        noted,
    }
}

// What was seen of each name on the list, for rows of the sort beside it.
#[inline(never)]
fn tell(table: &Table, sightings: &Sightings) -> [Sighted; 500]
    ensures { ToldAll table.now.bytes.now table.now.names.now (length table.now.names.now) sightings.now.entries sightings.now.roundings result }
{
    let mut all = [Sighted::NOTHING; 500];
    for (j, name) in table.names.iter().enumerate() {
        let i = table.rank(j);
        let entry = sightings.entries[i];
        all[j] = entry.told(name.sort, sightings.roundings);
    }
    all
}

// Of each name on the list, which stands in the bytes, whether the book has the article, and the window of its rows of the sort beside it. It stays
// a call of its own: what it takes of the stack is given back before a basket's questions are answered.
#[inline(never)]
pub fn find_all(b: &[u8], bytes: &[u8], names: &[Name]) -> Sights
    requires b_value { is_some (records b.now) ≡ true }
    requires listed { Listed bytes.now names.now (length names.now) }
    ensures { FoundAll b.now bytes.now names.now result }
{
    let table = Table::of(bytes, names);
    let sightings = walk(b, &table);
    Sights {
        all: tell(&table, &sightings),
        noted: sightings.noted,
    }
}
