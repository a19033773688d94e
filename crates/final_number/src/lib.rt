// The final article number: the base number of the asked article, and behind it its properties' values as the article's scheme writes them.
#![tactic(auto)]

ghost use Rattle.std.specs.Prelude.{true, ◌≡◌, ◌≤◌, IfSome, length};
ghost use Rattle.rules.specs.Lists.{is_some};
ghost use Rattle.rules.specs.BookLayout.{records};
ghost use Rattle.rules.specs.Question.{question_of};
ghost use Rattle.layout.specs.Ensures.{PutsTo};
ghost use Rattle.question.specs.Asked.{ask_in, AskIs};
ghost use Rattle.lookup.specs.Ensures.{FirstNamed, Stands};
ghost use Rattle.final_number.specs.Ensures.{longest, written, NumberCall, SchemeOf, number_in};

use layout::strings::put_bytes;
use lookup::named::first_named;
use question::Ask;
use records::{Kind, bytes_of};
use rules::{Part, Refusal, Written};
use values::{put_part, put_values};

// The longest number: a base number of 40 bytes, and 32 properties with a separator of 8 and a value of 30 each.
const LONGEST: usize = 40 + 32 * (8 + 30);

// The record of the asked article, as a part of the book.
fn article_for(b: &[u8], q: &[u8], ask: Ask) -> Option<Part>
    requires b_value { is_some (records b.now) ≡ true }
    requires ask_is { AskIs q.now ask }
    ensures { FirstNamed b.now 1 (ask_in q.now ask).article result }
{
    first_named(b, Kind::Article as u8, bytes_of(q, ask.article))
}

// The record of the scheme that the article's record names.
fn scheme_for(b: &[u8], article: Part) -> Option<Part>
    requires b_value { is_some (records b.now) ≡ true }
    requires article_stands { Stands b.now 1 article }
    ensures { SchemeOf b.now article result }
{
    let t = bytes_of(b, article);
    let scheme = records::article_of(t).scheme;
    if scheme.size == 0 {
        return None; // no scheme has an empty id
    }
    first_named(b, Kind::Scheme as u8, bytes_of(t, scheme))
}

// The number by the scheme whose record that part of the book is, written to the front of `out`; without a scheme, the base number alone.
fn put_number(out: &mut [u8], b: &[u8], scheme: Option<Part>, q: &[u8], ask: Ask) -> usize
    requires longest_in_bounds { longest ≤ length out.old }
    requires scheme_stands { IfSome scheme (Stands b.now 5) }
    requires ask_is { AskIs q.now ask }
    ensures { PutsTo out.old 0 (number_in b.now scheme (ask_in q.now ask)) out.new result }
{
    let base = put_part(out, 0, q, ask.article);
    let Some(part) = scheme else {
        return base;
    };
    let t = bytes_of(b, part);
    let scheme = records::scheme_of(t);
    put_values(out, base, q, ask.properties, ask.count, t, scheme)
}

// Of an accepted book and question. The number is made in room of its own, which is enough for any; so it is known whether it fits
// before a lent byte is written.
fn number_in(b: &[u8], q: &[u8], out: &mut [u8]) -> Result<usize, Refusal>
    requires b_value { is_some (records b.now) ≡ true }
    requires q_value { is_some (question_of q.now) ≡ true }
    ensures { NumberCall b.now q.now out.old out.new (written result) }
{
    let ask = question::ask_of(q);
    let Some(article) = article_for(b, q, ask) else {
        return Err(Refusal::NoArticle);
    };
    let scheme = scheme_for(b, article);
    let mut room = [0u8; LONGEST];
    let n = put_number(&mut room, b, scheme, q, ask);
    if out.len() < n {
        return Err(Refusal::ShortOutput);
    }
    put_bytes(out, 0, &room[..n]);
    Ok(n)
}

fn answered(book: &[u8], question: &[u8], out: &mut [u8]) -> Result<usize, Refusal>
    ensures { NumberCall book.now question.now out.old out.new (written result) }
{
    if !survey::is_book(book) {
        return Err(Refusal::BrokenBook);
    }
    if !question::question_ok(question) {
        return Err(Refusal::BrokenQuestion);
    }
    number_in(book, question, out)
}

// Writes the final article number to the front of `out`, and says how long it is.
pub fn final_number(book: &[u8], question: &[u8], out: &mut [u8]) -> Written
    ensures { NumberCall book.now question.now out.old out.new result }
{
    match answered(book, question, out) {
        Ok(length) => Written {
            length: length as u64,
            number: 0,
        },
        Err(reason) => Written::from(reason),
    }
}
