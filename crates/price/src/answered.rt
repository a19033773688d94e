// What is answered to an accepted question where there is room enough, refusals 3 to 6 or the price; and the lines of that price.
ghost use Rattle.std.specs.Prelude.{◌≡◌, MatchResult, length};
ghost use Rattle.rules.specs.Reasons.{number_for};
ghost use Rattle.layout.specs.Records.{records_left};
ghost use Rattle.question.specs.Asked.{ask_in, AskIs};
ghost use Rattle.survey.specs.Survey.{FoundIs};
ghost use Rattle.lines.specs.Views.{views_in, amounts_in, views_bytes};
ghost use Rattle.price.specs.Answered.{Ready, Listed, PriceNumber, RoomFor, PutsIfRoom, PricedTo, RefusedTo, AnsweredIs};

use crate::answer::answer;
use crate::quoted::quoted;
use lines::{Pick, write_lines};
use question::{Ask, ask_of};
use rules::{Cents, LINE_SIZE, Outcome, PriceAnswer, Refusal};
use survey::Found;

// What a caller reads, and where the lines end, if they found room.
#[derive(Drop)]
pub struct Answered {
    pub answer: PriceAnswer,
    pub end: Option<usize>,
}

// Whether there is a price, by a day's outcome: that has the number of a refusal, since the calendar hands it to C.
fn priced(outcome: Outcome) -> Result<(), Refusal>
    requires { PriceNumber outcome.refusal }
    ensures { MatchResult result (λ _. outcome.refusal ≡ 0) (λ x. outcome.refusal ≡ number_for x) }
{
    match outcome.refusal {
        0 => Ok(()),
        4 => Err(Refusal::NoBaseLine),
        5 => Err(Refusal::MixedCurrencies),
        _ => Err(Refusal::TotalOutOfRange),
    }
}

// Where so many bytes start, if they have room from there on.
fn room_for(room: usize, start: Option<usize>, size: usize) -> Option<usize>
    ensures { RoomFor room start size result }
{
    let at = start?;
    if at <= room && size <= room - at {
        Some(at)
    } else {
        None
    }
}

// The lines from `start` on, if there is room for them, and where they end.
fn put_if_room(
    out: &mut [u8],
    start: Option<usize>,
    rows: &[Pick],
    amounts: &[Cents; 99],
) -> Option<usize>
    requires { Listed rows.now amounts.now (length rows.now) }
    ensures { PutsIfRoom out.old start (views_bytes (views_in rows.now (length rows.now)) (amounts_in amounts.now (length rows.now))) out.new result }
{
    match room_for(out.len(), start, LINE_SIZE * rows.len()) {
        Some(at) => Some(write_lines(out, at, rows, amounts)),
        None => None,
    }
}

// What is answered to a question that has a price, by what was found for it in the book, with its lines from `start` on; or why it has none.
pub fn answer_at(
    book: &[u8],
    question: &[u8],
    ask: Ask,
    found: Found,
    out: &mut [u8],
    start: Option<usize>,
) -> Result<Answered, Refusal>
    requires ask_is { AskIs question.now ask }
    requires found_is { FoundIs book.now (ask_in question.now ask).article ask.sort found }
    ensures { MatchResult result (PricedTo (records_left book.now 5) (ask_in question.now ask) out.old start out.new)
        (RefusedTo (records_left book.now 5) (ask_in question.now ask) out.old out.new) }
{
    let window = found.known()?;
    let quote = quoted(book, window, question, ask);
    let outcome = quote.verdict.outcome;
    priced(outcome)?;
    let answer = answer(ask.quantity, quote.picks.n, outcome, quote.unused);
    let end = put_if_room(out, start, quote.rows(), &quote.verdict.amounts);
    Ok(Answered { answer, end })
}

// By what was found for the question in the book. Its lines go from `start` on: none for a question that is refused.
pub fn answer_to(
    book: &[u8],
    question: &[u8],
    found: Found,
    out: &mut [u8],
    start: Option<usize>,
) -> Answered
    requires { Ready book.now question.now found }
    ensures { AnsweredIs (records_left book.now 5) question.now out.old start out.new result }
{
    let ask = ask_of(question);
    match answer_at(book, question, ask, found, out, start) {
        Ok(told) => told,
        Err(reason) => Answered {
            answer: PriceAnswer::from(reason),
            end: room_for(out.len(), start, 0),
        },
    }
}
