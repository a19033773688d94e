// The price of a question with the names that a relation text derives ("Derive conditions in the plugin"): the book is accepted once, and what it has for
// the question's article is what it has for the question with the names.
#![tactic(auto)]

ghost use Rattle.std.specs.Prelude.{MatchResult};
ghost use Rattle.rules.specs.Reasons.{number_for};
ghost use Rattle.layout.specs.Records.{records_left};
ghost use Rattle.price.specs.Answered.{Ready};
ghost use Rattle.relation_rules.specs.Calls.{DerivedIs};
ghost use Rattle.derived_price.specs.Price.{Unplaced, refused_by, RefusalIs, without_place, PlainIs, PricedIs};

use derive::derive;
use layout::strings::put_bytes;
use price::answered::answer_to;
use relation_rules::DerivedAnswer;
use rules::{LINE_SIZE, PriceAnswer, Refusal};
use survey::Found;
use survey::entrance::enter;

// A question with derived names has 1,852 bytes at most.
const QUESTION_SIZE: usize = 2_048;
// The bytes of the most lines that a price has.
const LINES_SIZE: usize = 1_584;

// Why there is no price: the number of the refusal, and the place in the text that it has, or 0. The derivation hands out both as numbers.
#[derive(Drop)]
struct Refused {
    number: u8,
    place: u64,
}

impl From<Refusal> for Refused {
    ghost from_gives = { Unplaced };

    fn from(reason: Refusal) -> Refused {
        Refused {
            number: u8::from(reason),
            place: 0,
        }
    }
}

fn refusal(refused: Refused) -> DerivedAnswer
    ensures { RefusalIs refused.number refused.place result }
{
    DerivedAnswer {
        unit: 0,
        total: 0,
        lines: 0,
        place: refused.place,
        unused: 0,
        unused_count: 0,
        number: refused.number,
        currency: [0, 0, 0],
    }
}

// A price's answer, with place 0.
fn plain(answer: PriceAnswer) -> DerivedAnswer
    ensures { PlainIs answer result }
{
    let currency = answer.currency;
    DerivedAnswer {
        unit: answer.unit,
        total: answer.total,
        lines: answer.lines,
        place: 0,
        unused: answer.unused,
        unused_count: answer.unused_count,
        number: answer.number,
        currency,
    }
}

// The answer to an accepted question by what was found for it, refusals 3 to 6 or the price; 7 if its lines have no room. They are kept here until
// that is known.
fn priced(
    book: &[u8],
    question: &[u8],
    found: Found,
    lines: &mut [u8],
) -> Result<PriceAnswer, Refusal>
    requires { Ready book.now question.now found }
    ensures { MatchResult result (λ a. PricedIs (records_left book.now 5) question.now lines.old (without_place a) lines.new)
        (λ x. PricedIs (records_left book.now 5) question.now lines.old (refused_by (number_for x) 0) lines.new) }
{
    let mut kept = [0u8; LINES_SIZE];
    let told = answer_to(book, question, found, &mut kept, Some(0));
    let answer = told.answer;
    let size = LINE_SIZE * answer.lines as usize;
    if lines.len() < size {
        return Err(Refusal::ShortOutput);
    }
    put_bytes(lines, 0, &kept[..size]);
    Ok(answer)
}

// No byte is written before every refusal is tested.
fn derived(
    book: &[u8],
    question: &[u8],
    properties: &[u8],
    relation: &[u8],
    lines: &mut [u8],
) -> Result<PriceAnswer, Refused>
    ensures { MatchResult result (λ a. DerivedIs book.now question.now properties.now relation.now lines.old (without_place a) lines.new)
        (λ x. DerivedIs book.now question.now properties.now relation.now lines.old (refused_by x.number x.place) lines.new) }
{
    let entered = enter(book, question)?;
    let mut asked = [0u8; QUESTION_SIZE];
    let written = derive(question, properties, relation, &mut asked);
    if written.number != 0 {
        return Err(Refused {
            number: written.number,
            place: written.place,
        });
    }
    let n = written.length as usize;
    let granting = &asked[..n];
    let answer = priced(book, granting, entered.found, lines)?;
    Ok(answer)
}

pub fn price_derived(
    book: &[u8],
    question: &[u8],
    properties: &[u8],
    relation: &[u8],
    lines: &mut [u8],
) -> DerivedAnswer
    ensures { DerivedIs book.now question.now properties.now relation.now lines.old result lines.new }
{
    match derived(book, question, properties, relation, lines) {
        Ok(answer) => plain(answer),
        Err(refused) => refusal(refused),
    }
}
