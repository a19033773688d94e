// The calendar program: reads a book, a question and an end date from standard input, and prints the price calendar.
// All that is to be shown about it is shown of `printing::output`; here bytes are read and written, none of them on the heap.
#![tactic(auto)]

ghost use Rattle.std.specs.Prelude.{◌≤◌, length, IfOk};

use std::io;
use std::io::{Read, Write};

// So many bytes are read at most: one more than is allowed, so that too much is seen.
const MOST_READ: usize = 65_537;

// Reads until what is lent is full or the input ends, and returns how many bytes it put in front.
fn read_full(from: &mut impl Read, input: &mut [u8]) -> io::Result<usize>
    ensures { IfOk result (λ n. n ≤ length input.new) }
{
    let mut n = 0;
    while n < input.len() {
        let more = from.read(&mut input[n..])?;
        if more == 0 {
            break;
        }
        n += more;
    }
    Ok(n)
}

fn main(rt: HostRuntime) -> io::Result<()> {
    let mut input = [0; MOST_READ];
    let n = read_full(&mut rt.reader(), &mut input)?;
    let printed = printing::output::output(&input[..n]);
    let bytes = printed.bytes;
    let size = printed.n;
    io::writer(&rt).write_all(&bytes[..size])
}
