// One vector through its call. What a call may write is lent filled, and is printed whole afterwards, with some bytes behind it.
use crate::told::{Told, hex};
use rules::TextAnswer;
use std::io;
use std::io::Write;

// The byte that stands where nothing was written.
const FILL: u8 = 165;

// So many bytes are lent at most, however many a vector asks for.
const MOST_LENT: usize = 2000;

// The calls, in the order of their bytes.
#[derive(Clone, Copy, PartialEq, Eq)]
pub enum Call {
    Price,
    Calendar,
    FinalNumber,
    Packaging,
    Text,
    Basket,
    ReadPrices,
    WritePrices,
    PriceDerived,
    Derive,
}

// A byte below the ninth that is no call's asks for a text, one behind it for derived names.
impl From<u8> for Call {
    fn from(byte: u8) -> Call {
        match byte {
            1 => Call::Price,
            2 => Call::Calendar,
            3 => Call::FinalNumber,
            4 => Call::Packaging,
            6 => Call::Basket,
            7 => Call::ReadPrices,
            8 => Call::WritePrices,
            9 => Call::PriceDerived,
            10..=255 => Call::Derive,
            _ => Call::Text,
        }
    }
}

impl Call {
    // Whether a relation goes with it, and the properties that it speaks of.
    pub fn has_four_parts(self) -> bool {
        matches!(self, Call::PriceDerived | Call::Derive)
    }
}

// A call that is lent so many bytes to write to, or the most that are lent.
fn with_room<W: Write, A: Told + Drop, F: FnOnce(&mut [u8]) -> A>(
    to: &mut W,
    name: &[u8],
    room: usize,
    call: F,
) -> io::Result<()>
    requires { F.IsAlwaysCallable call }
{
    let mut out = [FILL; 2048];
    let lent = room.min(MOST_LENT);
    let answer = call(&mut out[..lent]);
    to.write_all(name)?;
    answer.tell(to)?;
    hex(to, &out[..lent + 8])
}

// A call on two parts.
pub fn run<W: Write>(
    to: &mut W,
    call: Call,
    n: u32,
    room: usize,
    a: &[u8],
    b: &[u8],
) -> io::Result<()> {
    match call {
        Call::Price => with_room(to, b"price", room, |out| plugin::rafttwine_price(a, b, out)),
        Call::Calendar => with_room(to, b"calendar", room, |out| {
            plugin::rafttwine_calendar(a, b, n, out)
        }),
        Call::FinalNumber => with_room(to, b"final_number", room, |out| {
            plugin::rafttwine_final_number(a, b, out)
        }),
        Call::Basket => with_room(
            to,
            b"basket",
            room,
            |out| plugin::rafttwine_basket(a, b, out),
        ),
        Call::ReadPrices => with_room(to, b"read_prices", room, |out| {
            plugin::rafttwine_read_prices(a, out)
        }),
        Call::WritePrices => with_room(to, b"write_prices", room, |out| {
            plugin::rafttwine_write_prices(a, out)
        }),
        Call::Packaging => {
            to.write_all(b"packaging")?;
            plugin::rafttwine_packaging(a, b).tell(to)
        }
        _ => text(to, a, b, n),
    }
}

// A call that derives names: the price with them, or the question.
pub fn derive_names<W: Write>(
    to: &mut W,
    call: Call,
    room: usize,
    book: &[u8],
    question: &[u8],
    properties: &[u8],
    relation: &[u8],
) -> io::Result<()> {
    if call == Call::PriceDerived {
        return with_room(to, b"price_derived", room, |out| {
            plugin::rafttwine_price_derived(book, question, properties, relation, out)
        });
    }
    with_room(to, b"derive", room, |out| {
        plugin::rafttwine_derive(question, properties, relation, out)
    })
}

fn text(to: &mut impl Write, asked: &[u8], fallback: &[u8], n: u32) -> io::Result<()> {
    let answer = plugin::rafttwine_text(asked, fallback, n);
    to.write_all(b"text")?;
    answer.tell(to)?;
    if !handed(asked, fallback, n, answer) {
        to.write_all(b" elsewhere")?;
    }
    Ok(())
}

// Inside Rattle the text comes as a part of its book. It has to be the bytes to which the numbers point.
fn handed<'a>(asked: &'a [u8], fallback: &'a [u8], n: u32, answer: TextAnswer) -> bool {
    let part = texts::text(asked, fallback, n);
    let book = if answer.book == 2 { fallback } else { asked };
    let from = book.len().min(answer.place as usize);
    let end = from + (book.len() - from).min(answer.length as usize);
    part == &book[from..end]
}
