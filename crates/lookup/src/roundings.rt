// The roundings of up to 99 numbers, found by one walk over the records, or among spots that were noted before: of each number the first record's
// spot, then the rounding there.
ghost use Rattle.std.specs.Prelude.{◌+◌, ◌≤◌, ◌≡◌, length};
ghost use Rattle.rules.specs.Book.{plain};
ghost use Rattle.layout.specs.Records.{Between, StopIs};
ghost use Rattle.lookup.specs.Roundings.{SpotAfter, SpotsAfter, OpenAre, Room, Noted, NextOpen, SpotsFound, RoundingHere, SpotHeld, RoundingAt, SpotsNoted};

use book::record_stop;
use records::{rounding_number, rounding_of};
use rules::{Cents, Rounding, Way};

// Sets the flags of the low bytes of those of the numbers that have no spot, and tells whether there are any. No record has number 0, so
// that it is not looked for.
fn flag_open(low: &mut [bool; 256], numbers: &[u16], spots: &[usize; 99]) -> bool
    requires low_len { length low.old ≡ 256 }
    requires numbers_len { length numbers.now ≤ 99 }
    ensures { OpenAre numbers.now spots.now (length numbers.now) low.new result }
{
    let mut any = false;
    for (i, number) in numbers.iter().enumerate() {
        let wanted = (*number != 0) & (spots[i] == 0);
        low[(*number % 256) as usize] |= wanted;
        any |= wanted;
    }
    any
}

// The spot of the next rounding that may be looked for, by the flags of low bytes, or the end. Where none is looked for, that is the end at once.
fn next_open(b: &[u8], from: usize, low: &[bool; 256], any: bool) -> usize
    requires { Between b.now from }
    ensures { NextOpen b.now from low.now any result }
{
    if !any {
        return b.len();
    }
    let mut at = from;
    while at < b.len() {
        let end = record_stop(b, at);
        let body = at + 2;
        if let Some(number) = rounding_number(&b[body..end])
            && low[(number % 256) as usize]
        {
            return at;
        }
        at = end;
    }
    at
}

// Where the rounding at `at` ends: they all have one length. So the walk reads a record's length once, on its way to the next.
fn rounding_stop(b: &[u8], at: usize) -> usize
    requires rounding_here { RoundingHere b.now at }
    requires at_in_bounds { at + 18 ≤ length b.now }
    ensures { StopIs b.now at result }
{
    at + 18
}

// A number's spot once a record at `at` has gone by: the first that has the number counts.
fn first_spot(spot: usize, here: bool, at: usize) -> usize
    ensures { SpotAfter spot here at result }
{
    if (spot == 0) & here { at } else { spot }
}

// The rounding of `number` at `at` goes by: its spot is that of each of the numbers that it is the first of.
fn put_spots(spots: &mut [usize; 99], numbers: &[u16], number: u16, at: usize)
    requires spots_len { length spots.old ≡ 99 }
    requires numbers_len { length numbers.now ≤ 99 }
    ensures { SpotsAfter spots.old numbers.now (length numbers.now) number at spots.new }
{
    for (i, own) in numbers.iter().enumerate() {
        spots[i] = first_spot(spots[i], *own == number, at);
    }
}

// The same, with the flags of what is still looked for, and whether there is anything. The flag of a rounding that is found falls, unless a number
// with the same low byte is left: so a record that repeats its number is passed over.
fn note_rounding(
    spots: &mut [usize; 99],
    low: &mut [bool; 256],
    numbers: &[u16],
    number: u16,
    at: usize,
) -> bool
    requires { Room spots.old low.old (length numbers.now) }
    ensures { Noted spots.old numbers.now (length numbers.now) number at spots.new low.new result }
{
    put_spots(spots, numbers, number, at);
    low[(number % 256) as usize] = false;
    flag_open(low, numbers, spots)
}

// Where the roundings of the numbers stand, looked for from a spot of the book on. A number that no record has gets 0: as Option<usize> the
// spots would be twice as long, and the bound on a calendar's stack is tight. The walk ends as soon as all are found.
pub fn rounding_spots(b: &[u8], from: usize, numbers: &[u16]) -> [usize; 99]
    requires between { Between b.now from }
    requires numbers_len { length numbers.now ≤ 99 }
    ensures { SpotsFound b.now from numbers.now (length numbers.now) result }
{
    let mut spots = [0; 99];
    let mut low = [false; 256];
    let open = flag_open(&mut low, numbers, &spots);
    let mut at = next_open(b, from, &low, open);
    while at < b.len() {
        let end = rounding_stop(b, at);
        let body = at + 2;
        let rounding = rounding_of(&b[body..end]);
        let left = note_rounding(&mut spots, &mut low, numbers, rounding.number, at);
        at = next_open(b, end, &low, left);
    }
    spots
}

// To the nearest cent, with nothing added.
fn plain_rounding() -> Rounding
    ensures { result ≡ plain }
{
    Rounding {
        number: 0,
        way: Way::Commercial,
        step: 1,
        before: Cents(0),
        after: Cents(0),
    }
}

// The rounding that stands at a spot that was found, or at 0 the plain one.
pub fn rounding_at(b: &[u8], spot: usize) -> Rounding
    requires { SpotHeld b.now spot }
    ensures { RoundingAt b.now spot result }
{
    if spot == 0 {
        return plain_rounding();
    }
    let end = record_stop(b, spot);
    let body = spot + 2;
    rounding_of(&b[body..end])
}

// Where the roundings of the numbers stand, if the spots of all roundings of the book were noted. No other record is looked at.
pub fn spots_among(b: &[u8], noted: &[usize], numbers: &[u16]) -> [usize; 99]
    requires spots_noted { SpotsNoted b.now 5 noted.now (length noted.now) }
    requires numbers_len { length numbers.now ≤ 99 }
    ensures { SpotsFound b.now 5 numbers.now (length numbers.now) result }
{
    let mut spots = [0; 99];
    for spot in noted {
        let rounding = rounding_at(b, *spot);
        put_spots(&mut spots, numbers, rounding.number, *spot);
    }
    spots
}
