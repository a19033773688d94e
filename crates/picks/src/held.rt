// Where the chosen rows stand in the book, slot after slot, at which places of the granted names, and the numbers of their roundings.
ghost use Rattle.std.specs.Prelude.{◌≤◌};
ghost use Rattle.picks.specs.Held.{Counted, StepIs, NextPlace, HeldIn};

use choice::SLOTS;
use choice::hands::{Hand, Seen, taken};
use choice::slots::PLACES;

fn counted(hand: Hand) -> usize
    ensures { Counted hand result }
{
    if hand.is_empty() { 0 } else { 1 }
}

// How far it is to the next slot: behind the last granted name no slot of a level holds a row.
fn step(place: usize, names: usize) -> usize
    requires { names ≤ 32 }
    ensures { StepIs place names result }
{
    if place < names { 1 } else { PLACES - names }
}

fn next_place(place: usize, names: usize) -> usize
    requires { names ≤ 32 }
    ensures { NextPlace place names result }
{
    if place < names { place + 1 } else { 0 }
}

// The first n rows, each by where it stands, the place that brought it and its rounding's number.
// As it is: an array with its count, since the library takes no heap.
#[derive(Drop)]
pub struct Held {
    pub ats: [usize; 99],
    pub places: [u8; 99],
    pub numbers: [u16; 99],
    pub n: usize,
}

// With so many granted names.
pub fn held_in(slots: &[Seen; SLOTS], names: usize) -> Held
    requires { names ≤ 32 }
    ensures { HeldIn slots.now names result.ats result.places result.numbers result.n }
{
    let mut ats = [0; 99];
    let mut places = [0; 99];
    let mut numbers = [0; 99];
    let mut n = 0;
    let mut i = 0;
    let mut place = 0;
    while i < SLOTS {
        let hand = taken(slots[i]);
        ats[n] = hand.at;
        places[n] = place as u8;
        numbers[n] = hand.rounding;
        n += counted(hand);
        i += step(place, names);
        place = next_place(place, names);
    }
    Held {
        ats,
        places,
        numbers,
        n,
    }
}
