// Texts of two lent text books: which bytes are a text book, and the text of a number as a part of the book that has it.
#![tactic(auto)]

ghost use Rattle.std.specs.Prelude.{◌≡◌, [], ◌∷◌, ◌+◌, ◌≤◌, length};
ghost use Rattle.std.specs.Option.{option_or};
ghost use Rattle.rules.specs.Lists.{is_some};
ghost use Rattle.rules.specs.Refusals.{refused};
ghost use Rattle.rules.specs.Reasons.{number_for};
ghost use Rattle.rules.specs.TextBook.{entries};
ghost use Rattle.rules.specs.Text.{text, shown, entry_of};
ghost use Rattle.layout.specs.Ends.{EndOrNone};
ghost use Rattle.texts.specs.Ensures.{EntryEnd, EntryIn, IsPart, Handed, entry_at, found_at};
ghost use Rattle.texts.specs.Looks.{Looks, seen, looked};

use layout::heads::book_head_ok;
use layout::numbers::{four_at, two_at};
use rules::{Part, Refusal, TextAnswer};

// Where the entry at `at` ends, if one stands there: a number of four bytes, a length of two, and as many bytes.
fn entry_end(s: &[u8], at: usize) -> Option<usize>
    requires { at ≤ length s.now }
    ensures { EndOrNone (EntryEnd s.now at) result }
{
    if s.len() - at < 6 {
        return None;
    }
    let start = at + 6;
    let end = start + two_at(s, at + 4);
    if end <= s.len() { Some(end) } else { None }
}

// The text of the entry from `at` to `end`, if it has the number.
fn hit(s: &[u8], at: usize, end: usize, number: u32) -> Option<Part>
    requires { EntryIn s.now at end }
    ensures { result ≡ seen (entry_of number (entry_at s.now at end ∷ [])) }
{
    if four_at(s, at) == number as usize {
        let size = end - (at + 6);
        return Some(Part { at: at + 6, size });
    }
    None
}

// What was found stays: an entry that comes later is looked at only where nothing was.
fn first_of(found: Option<Part>, s: &[u8], at: usize, end: usize, number: u32) -> Option<Part>
    requires { EntryIn s.now at end }
    ensures { result ≡ option_or found (seen (entry_of number (entry_at s.now at end ∷ []))) }
{
    match found {
        Some(text) => Some(text),
        None => hit(s, at, end, number),
    }
}

// The first text that has the number, if one has it. One pass both looks for it and judges the whole book: a book that is broken behind the
// text found is broken.
fn look(s: &[u8], number: u32) -> Result<Option<Part>, Refusal>
    ensures { Looks (looked number (entries s.now)) result }
{
    if !book_head_ok(s) {
        return Err(Refusal::BrokenBook);
    }
    let mut found = None;
    let mut at = 5;
    while at < s.len() {
        let Some(end) = entry_end(s, at) else {
            return Err(Refusal::BrokenBook);
        };
        found = first_of(found, s, at, end, number);
        at = end;
    }
    Ok(found)
}

// Which number is looked for does not matter here.
pub fn text_book_ok(s: &[u8]) -> bool
    ensures { result ≡ is_some (entries s.now) }
{
    look(s, 0).is_ok()
}

// Zeros beside the number of a refusal.
fn refusal(reason: Refusal) -> TextAnswer
    ensures { result ≡ shown (refused (number_for reason)) }
{
    TextAnswer {
        place: 0,
        length: 0,
        number: reason.into(),
        book: 0,
    }
}

// The number 0, and where the text is.
fn found_in(book: u8, text: Part) -> TextAnswer
    ensures { result ≡ found_at book text.at text.size }
{
    TextAnswer {
        place: text.at as u64,
        length: text.size as u64,
        number: 0,
        book: book,
    }
}

// Which book has the text, and where in it. Both books are judged even where the asked one has the text.
pub fn text_answer(asked: &[u8], fallback: &[u8], number: u32) -> TextAnswer
    ensures { result ≡ shown (text asked.now fallback.now number) }
{
    let here = look(asked, number);
    let there = look(fallback, number);
    match here {
        Err(reason) => refusal(reason),
        Ok(None) => match there {
            Err(reason) => refusal(reason), // before it is said that neither has the number
            Ok(None) => refusal(Refusal::NoText),
            Ok(Some(text)) => found_in(2, text),
        },
        Ok(Some(text)) => match there {
            Err(reason) => refusal(reason), // though the asked book has the text
            Ok(_) => found_in(1, text),
        },
    }
}

// So many bytes of a book, where they lie.
fn piece<'a>(book: &'a [u8], place: usize, size: usize) -> &'a [u8]
    requires { place + size ≤ length book.now }
    ensures { IsPart book.entry place size result }
{
    let end = place + size;
    &book[place..end]
}

// The text itself, where it lies. A refused call hands out an empty part, of the asked book; `text_answer` tells it from an empty text.
pub fn text<'a>(asked: &'a [u8], fallback: &'a [u8], number: u32) -> &'a [u8]
    ensures { Handed asked.entry fallback.entry number result }
{
    let answer = text_answer(asked, fallback, number);
    let place = answer.place as usize;
    let size = answer.length as usize;
    if answer.book == 2 {
        piece(fallback, place, size)
    } else {
        piece(asked, place, size)
    }
}
