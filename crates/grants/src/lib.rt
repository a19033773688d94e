// The granted names of a question as a table, made once ("Which row is chosen": granted names): raised, each at the place where it is named first.
// An entry for each place: a byte with the name's length, two with its factor, then its bytes, zeros behind. A repeat's entry, and one behind the
// last name, is all zeros.
#![tactic(auto)]

pub mod asking;
pub mod idle;
pub mod places;
pub mod terms;

ghost use Rattle.std.specs.Prelude.{◌≤◌, ◌<◌, ◌≡◌, length, unwrap_or, IfSome};
ghost use Rattle.layout.specs.Ensures.{Says, Number};
ghost use Rattle.question.specs.Parts.{NamesStand, names_at};
ghost use Rattle.grants.specs.Table.{table_size, GrantsAre, entry_is, look_from, Entered};
ghost use Rattle.grants.specs.Places.{PlaceIs, FirstIs, Granting, FactorAt};

use layout::names::{put_raised, same_bytes};
use layout::numbers::{put_two, two_at, wide};
use layout::strings::put_bytes;
use question::names::{factor_of, name_stop, next_name};
use rules::PLAIN_FACTOR;

// A question grants at most 32 names, each of at most 20 bytes.
pub const MOST: usize = 32;

const LONGEST: usize = 20;
// An entry has a length byte, a factor and room for the longest name, a table an entry for each granted place.
const ENTRY: usize = 23;

pub const TABLE: usize = 736;
// One past the last place: none. A number, not an `Option`: what is kept for each place has a last slot that nobody reads, so that a
// walk over a book stores without a branch.
pub const NOWHERE: usize = 33;

// Whether the entry behind i others is that of the name. The lengths first, then the bytes.
fn is_entry(g: &[u8], i: usize, name: &[u8]) -> bool
    requires g_len { length g.now ≡ table_size }
    requires i_bound { i < 32 }
    requires name_len_bound { length name.now ≤ 20 }
    ensures { Says (entry_is g.now i name.now) result }
{
    let at = ENTRY * i;
    if wide(g[at]) != name.len() {
        return false;
    }
    let from = at + 3;
    let end = from + name.len();
    same_bytes(&g[from..end], name)
}

// The place of the first of n entries that is that of the name.
fn look(g: &[u8], n: usize, name: &[u8]) -> Option<usize>
    requires g_len { length g.now ≡ table_size }
    requires n_bound { n ≤ 32 }
    requires name_len_bound { length name.now ≤ 20 }
    ensures is { Number (look_from g.now 0 n name.now) 34 (unwrap_or result 33) }
    ensures place { IfSome result (λ p. p ≤ 32) }
{
    for i in 0..n {
        if is_entry(g, i, name) {
            return Some(i + 1);
        }
    }
    None
}

// A name more comes into the table behind k entries, raised, with its factor. One that is among them leaves it as it is, whatever its factor.
fn enter(table: &mut [u8], k: usize, name: &[u8], factor: u16)
    requires table_len { length table.old ≡ table_size }
    requires k_bound { k < 32 }
    requires name_len_bound { length name.now ≤ 20 }
    ensures { Entered table.old k name.now factor table.new }
{
    let size = name.len();
    let mut raised = [0u8; LONGEST];
    put_raised(&mut raised, 0, name);
    if look(table, k, &raised[..size]).is_none() {
        let at = ENTRY * k;
        table[at] = size as u8;
        put_two(table, at + 1, factor);
        put_bytes(table, at + 3, &raised[..size]);
    }
}

// The table of the n names that stand in a question of this version from `at` on.
pub fn grants_of(q: &[u8], at: usize, n: usize, version: u8) -> [u8; TABLE]
    requires names_stand { NamesStand version q.now at n }
    requires n_bound { n ≤ 32 }
    ensures { GrantsAre (names_at version q.now at n) result }
{
    let mut table = [0u8; TABLE];
    let mut here = at;
    for k in 0..n {
        let stop = name_stop(q, here, version);
        let factor = factor_of(q, here, version);
        enter(&mut table, k, &q[here + 1..stop], factor);
        here = next_name(q, here, version);
    }
    table
}

// The place of a row's condition: 0 if it has none, else that of the granted name that it is, or 33. The table is of n names.
pub fn place_of(g: &[u8], n: usize, condition: &[u8]) -> usize
    requires g_len { length g.now ≡ table_size }
    requires n_bound { n ≤ 32 }
    ensures { PlaceIs g.now n condition.now result }
{
    if condition.is_empty() {
        return 0;
    }
    if LONGEST < condition.len() {
        return NOWHERE;
    }
    look(g, n, condition).unwrap_or(NOWHERE)
}

// Whether the name at a place, from 1, is named there first.
pub fn is_first(g: &[u8], place: usize) -> bool
    requires g_len { length g.now ≡ table_size }
    requires le_place { 1 ≤ place }
    requires place_bound { place ≤ 32 }
    ensures { FirstIs g.now place result }
{
    0 < g[ENTRY * (place - 1)]
}

// The factor of a place: 1,000 where no condition is, else that of the name at it, from 1.
pub fn factor_at(g: &[u8], place: usize) -> u16
    requires g_len { length g.now ≡ table_size }
    requires place_bound { place ≤ 32 }
    requires granting { Granting g.now }
    ensures { FactorAt g.now place result }
{
    if place == 0 {
        return PLAIN_FACTOR;
    }
    two_at(g, ENTRY * (place - 1) + 1) as u16
}
