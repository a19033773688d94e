// What a call answered, in a line: numbers in decimal, bytes in hexadecimal, each after a blank.
use relation_rules::DerivedAnswer;
use rules::{CalendarAnswer, PackagingAnswer, PlacedAnswer, PriceAnswer, TextAnswer, Written};
use std::io;
use std::io::Write;

// An answer of one of the calls.
pub trait Told {
    fn tell(&self, to: &mut impl Write) -> io::Result<()>;
}

// So many bytes are put into hexadecimal at once.
const AT_ONCE: usize = 2048;

fn digits_of(b: u8) -> [u8; 2] {
    let digits = b"0123456789abcdef";
    [digits[(b / 16) as usize], digits[(b % 16) as usize]]
}

// Bytes in hexadecimal.
pub fn hex(to: &mut impl Write, bytes: &[u8]) -> io::Result<()> {
    to.write_all(b" ")?;
    let mut text = [[0; 2]; AT_ONCE];
    for part in bytes.chunks(AT_ONCE) {
        for (digits, b) in text.iter_mut().zip(part) {
            *digits = digits_of(*b);
        }
        to.write_all(text[..part.len()].as_flattened())?;
    }
    Ok(())
}

// A currency or a unit in hexadecimal: for three bytes, no room is made for more.
fn three(to: &mut impl Write, bytes: &[u8]) -> io::Result<()> {
    to.write_all(b" ")?;
    for b in bytes {
        to.write_all(&digits_of(*b))?;
    }
    Ok(())
}

impl Told for PriceAnswer {
    fn tell(&self, to: &mut impl Write) -> io::Result<()> {
        write!(to, " {} {} {}", self.number, self.unit, self.total)?;
        write!(to, " {} {} {}", self.lines, self.unused, self.unused_count)?;
        three(to, &self.currency)
    }
}

impl Told for DerivedAnswer {
    fn tell(&self, to: &mut impl Write) -> io::Result<()> {
        write!(to, " {} {} {}", self.number, self.unit, self.total)?;
        write!(to, " {} {}", self.lines, self.place)?;
        write!(to, " {} {}", self.unused, self.unused_count)?;
        three(to, &self.currency)
    }
}

impl Told for Written {
    fn tell(&self, to: &mut impl Write) -> io::Result<()> {
        write!(to, " {} {}", self.number, self.length)
    }
}

impl Told for CalendarAnswer {
    fn tell(&self, to: &mut impl Write) -> io::Result<()> {
        write!(to, " {} {}", self.number, self.length)
    }
}

impl Told for PlacedAnswer {
    fn tell(&self, to: &mut impl Write) -> io::Result<()> {
        write!(to, " {} {} {}", self.number, self.length, self.place)
    }
}

impl Told for PackagingAnswer {
    fn tell(&self, to: &mut impl Write) -> io::Result<()> {
        write!(to, " {} {} {}", self.number, self.gross, self.present)?;
        for value in &self.values {
            write!(to, " {value}")?;
        }
        for unit in self.units.chunks(3) {
            three(to, unit)?;
        }
        Ok(())
    }
}

impl Told for TextAnswer {
    fn tell(&self, to: &mut impl Write) -> io::Result<()> {
        write!(
            to,
            " {} {} {} {}",
            self.number, self.book, self.place, self.length
        )
    }
}
