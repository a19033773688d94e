// The vectors program: reads stored vectors of the calls as a planning tool links them, and prints what each call gave, a line for each
// vector. The second implementation wrote the lines that it has to print. A vector is a byte for the call, four numbers of four bytes (a
// date or a text number, the bytes lent, the sizes of two parts), and the two parts; from the ninth call on two more parts, each behind its size in four bytes.
#![tactic(auto)]

mod calls;
mod rest;
mod told;

ghost use Rattle.std.specs.Prelude.{◌≡◌, ◌≤◌, ◌<◌, length, IfOk, OnOk};

use crate::calls::Call;
use crate::rest::Rest;
use std::io;
use std::io::{Read, Write};

// So many bytes are read at most.
const MOST_READ: usize = 524_288;

// A call and its four numbers.
const HEAD_SIZE: usize = 17;

// Reads until what is lent is full or the input ends, and returns how many bytes it put in front.
fn read_full(from: &mut impl Read, input: &mut [u8]) -> io::Result<usize>
    ensures { IfOk result (λ n. n ≤ length input.new) }
{
    let mut n = 0;
    while n < input.len() {
        let more = from.read(&mut input[n..])?;
        if more == 0 {
            break;
        }
        n += more;
    }
    Ok(n)
}

// As many bytes as are read.
fn zeros() -> [u8; MOST_READ]
    ensures { length result ≡ 524_288 }
{
    [0; MOST_READ]
}

// Nothing is taken from the heap, and each answer is printed before the next call is made.
fn main(rt: HostRuntime) -> io::Result<()> {
    let mut input = zeros();
    let n = read_full(&mut rt.reader(), &mut input)?;
    let mut to = io::writer(&rt);
    let mut rest = Rest { bytes: &input[..n] };
    while rest.bytes.len() >= HEAD_SIZE {
        one(&mut to, &mut rest)?;
    }
    Ok(())
}

// The next vector.
fn one(to: &mut impl Write, rest: &mut Rest<'_>) -> io::Result<()>
    requires { 17 ≤ length rest.old.bytes.now }
    ensures { OnOk result (length rest.new.bytes.now < length rest.old.bytes.now) }
{
    let call = Call::from(rest.part(1)[0]);
    let number = rest.number() as u32;
    let room = rest.number();
    let first_size = rest.number();
    let second_size = rest.number();
    let a = rest.part(first_size);
    let b = rest.part(second_size);
    if !call.has_four_parts() {
        calls::run(to, call, number, room, a, b)?;
        return to.write_all(b"\n");
    }
    let properties_size = rest.number();
    let properties = rest.part(properties_size);
    let relation_size = rest.number();
    let relation = rest.part(relation_size);
    calls::derive_names(to, call, room, a, b, properties, relation)?;
    to.write_all(b"\n")
}
