// The price calendar: the longest stretches of days with one outcome.
#![tactic(auto)]

mod bytes;
pub mod list;
pub mod listing;

ghost use Rattle.calendar.specs.Calls.{CalendarIs};
ghost use Rattle.calendar.specs.Listing.{RefusalIs, AnswerIs};

use crate::bytes::write_stretches;
use crate::listing::listing_of;
use rules::{CalendarAnswer, Refusal};

// What refuses a call that would write so much, where there is so much room: what refused the listing, then 7.
fn refusal(listed: u8, size: usize, room: usize) -> u8
    ensures { RefusalIs listed size room result }
{
    if listed != 0 {
        return listed;
    }
    if room < size {
        u8::from(Refusal::ShortOutput)
    } else {
        0
    }
}

// What a caller reads of it: how much is written, or the number of the refusal.
fn answer(listed: u8, size: usize, room: usize) -> CalendarAnswer
    ensures { AnswerIs listed size room result }
{
    let number = refusal(listed, size, room);
    let length = if number == 0 { size as u64 } else { 0 };
    CalendarAnswer { length, number }
}

// The calendar from the question's date to `end`, 20 bytes for a stretch. All is found before the first byte is written.
pub fn calendar(book: &[u8], question: &[u8], end: u32, out: &mut [u8]) -> CalendarAnswer
    ensures { CalendarIs book.now question.now end out.old result out.new }
{
    let listing = listing_of(book, question, end);
    let answer = answer(listing.number, 20 * listing.stretches.n, out.len());
    if answer.number == 0 {
        write_stretches(out, listing.stretches.as_slice());
    }
    answer
}
