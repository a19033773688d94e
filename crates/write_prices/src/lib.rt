// The price file of a book: a line for each price record. One walk judges, and only then a second writes; refusals 1, 13, 7.
#![tactic(auto)]

ghost use Rattle.std.specs.Prelude.{◌≤◌, ◌≡◌, true, length};
ghost use Rattle.rules.specs.Lists.{is_some};
ghost use Rattle.rules.specs.BookLayout.{records};
ghost use Rattle.file_rules.specs.Calls.{WriteIs};
ghost use Rattle.layout.specs.Ensures.{PutsTo};
ghost use Rattle.write_prices.specs.Written.{file_of, blameless};
ghost use Rattle.write_prices.specs.Ends.{JudgedIs, WrittenIs};

use book::record_stop;
use price_text::{line_size, put_line};
use rules::{PlacedAnswer, Refusal};
use survey::is_book;

// Why a book has no price file, and the place of the record that no line can hold, from 1; 0 where that is not the reason.
#[derive(Clone, Copy, PartialEq, Eq)]
struct Refused {
    reason: Refusal,
    place: usize,
}

impl From<Refusal> for Refused {
    ghost from_gives = { λ r e. e ≡ blameless r };

    fn from(reason: Refusal) -> Refused {
        Refused { reason, place: 0 }
    }
}

// How many bytes the lines of its price records take, if lines can hold them all.
fn judge(b: &[u8]) -> Result<usize, Refused>
    requires { is_some (records b.now) ≡ true }
    ensures { JudgedIs b.now result }
{
    let mut size = 0;
    let mut at = 5;
    while at < b.len() {
        let end = record_stop(b, at);
        let Ok(line) = line_size(&b[at + 2..end]) else {
            return Err(Refused {
                reason: Refusal::BadRow,
                place: at + 1,
            });
        };
        size += line;
        at = end;
    }
    Ok(size)
}

fn write_lines(b: &[u8], out: &mut [u8]) -> usize
    requires b_value { is_some (records b.now) ≡ true }
    requires file_fits { length (file_of b.now) ≤ length out.old }
    ensures { PutsTo out.old 0 (file_of b.now) out.new result }
{
    let mut to = 0;
    let mut at = 5;
    while at < b.len() {
        let end = record_stop(b, at);
        to = put_line(out, to, &b[at + 2..end]);
        at = end;
    }
    to
}

// How many bytes it writes.
fn write_file(book: &[u8], out: &mut [u8]) -> Result<usize, Refused>
    ensures { WrittenIs book.now out.old out.new result }
{
    if !is_book(book) {
        return Err(Refusal::BrokenBook.into());
    }
    let size = judge(book)?;
    if out.len() < size {
        return Err(Refusal::ShortOutput.into());
    }
    Ok(write_lines(book, out))
}

pub fn write_prices(book: &[u8], out: &mut [u8]) -> PlacedAnswer
    ensures { WriteIs book.now out.old result out.new }
{
    match write_file(book, out) {
        Ok(length) => PlacedAnswer {
            length: length as u64,
            place: 0,
            number: 0,
        },
        Err(refused) => PlacedAnswer::refused(refused.reason, refused.place),
    }
}
