// The granted names of a question. In version 2 each has its factor behind it, in two bytes.
ghost use Rattle.std.specs.Prelude.{◌≤◌, length};
ghost use Rattle.layout.specs.Ends.{EndOrNone};
ghost use Rattle.question.specs.Asked.{NameStop, FactorIs, NextIs, NamesEnd};
ghost use Rattle.question.specs.Parts.{GrantEnds, GrantStands, GrantedEnd, NamesStand};

use layout::names::name_end;
use layout::numbers::{two_at, wide};
use rules::{MOST_FACTOR, PLAIN_FACTOR, WITH_FACTORS};

// Where the granted name at `at` ends with its factor, if both stand there.
fn grant_end(s: &[u8], at: usize, version: u8) -> Option<usize>
    requires { at ≤ length s.now }
    ensures { EndOrNone (GrantEnds version s.now at) result }
{
    let end = name_end(s, at, 1, 20)?;
    if version == WITH_FACTORS {
        if s.len() - end < 2 {
            return None;
        }
        let most = MOST_FACTOR as usize;
        if most < two_at(s, end) {
            return None;
        }
        return Some(end + 2);
    }
    Some(end)
}

// Where the granted names end whose count stands at `at`, if as many stand there.
pub fn granted_end(s: &[u8], at: usize, version: u8) -> Option<usize>
    requires { at ≤ length s.now }
    ensures { EndOrNone (GrantedEnd version s.now at) result }
{
    if s.len() <= at {
        return None;
    }
    let n = wide(s[at]);
    if 32 < n {
        return None;
    }
    let mut end = at + 1;
    for _ in 0..n {
        end = grant_end(s, end, version)?;
    }
    Some(end)
}

// ---- of an accepted question

// The end of the granted name that stands at `at`.
pub fn name_stop(s: &[u8], at: usize, version: u8) -> usize
    requires { GrantStands version s.now at }
    ensures { NameStop version s.now at result }
{
    at + 1 + wide(s[at])
}

// The factor of that name.
pub fn factor_of(s: &[u8], at: usize, version: u8) -> u16
    requires { GrantStands version s.now at }
    ensures { FactorIs version s.now at result }
{
    if version == WITH_FACTORS {
        let end = name_stop(s, at, version);
        return two_at(s, end) as u16;
    }
    PLAIN_FACTOR
}

// Where the next one stands.
pub fn next_name(s: &[u8], at: usize, version: u8) -> usize
    requires { GrantStands version s.now at }
    ensures { NextIs version s.now at result }
{
    let end = name_stop(s, at, version);
    if version == WITH_FACTORS {
        end + 2
    } else {
        end
    }
}

// The end of n granted names, the first at `at`.
pub fn names_stop(s: &[u8], at: usize, n: usize, version: u8) -> usize
    requires { NamesStand version s.now at n }
    ensures { NamesEnd version s.now at n result }
{
    let mut end = at;
    for _ in 0..n {
        end = next_name(s, end, version);
    }
    end
}
