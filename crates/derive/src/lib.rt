// The question with the names that a relation text derives from the properties beside it ("Derive conditions in the plugin"): refusals 2, 14 or 15,
// 16, 7 in that order, and the question's bytes at the front of the lent output.
#![tactic(auto)]

mod names;

ghost use Rattle.std.specs.Prelude.{MatchOption};
ghost use Rattle.layout.specs.Ensures.{PutsTo};
ghost use Rattle.relation_rules.specs.Calls.{DeriveIs};
ghost use Rattle.relations.specs.Names.{names_of};
ghost use Rattle.derive.specs.Written.{NotAsked, GrantsNone, Fitting, QuestionRoom, named_at, PutIs};

use crate::names::{names_size, put_names};
use layout::numbers::put_four;
use layout::strings::{put_bytes, put_run};
use property_list::properties_ok;
use question::{ask_of, question_ok};
use relations::names::names_of;
use rules::{Part, PlacedAnswer, Refusal};

// Where the count of a question's granted names stands, if the bytes are a question and it is 0.
fn count_position(question: &[u8]) -> Option<usize>
    ensures { MatchOption result (NotAsked question.now) (GrantsNone question.now) }
{
    if !question_ok(question) {
        return None;
    }
    let ask = ask_of(question);
    if ask.conditions != 0 {
        return None;
    }
    Some(ask.granted - 1)
}

// All but length and count stays as it was; the names, which take `size` bytes, go behind their count, which stands at `at`.
fn put_question(
    out: &mut [u8],
    question: &[u8],
    at: usize,
    text: &[u8],
    names: &[Part],
    size: usize,
) -> usize
    requires fitting { Fitting question.now at text.now names.now }
    requires question_room { QuestionRoom out.old question.now text.now names.now size }
    ensures { PutsTo out.old 0 (named_at at (names_of text.now names.now) question.now) out.new result }
{
    put_four(out, 0, (question.len() + size) as u32);
    let count = put_bytes(out, 4, &question[4..at]);
    let first = put_run(out, count, names.len() as u8, 1);
    let end = put_names(out, first, text, names, question[4]);
    let rest = at + 1;
    put_bytes(out, end, &question[rest..])
}

// If there is room for it.
fn put_if_room(
    out: &mut [u8],
    question: &[u8],
    at: usize,
    text: &[u8],
    names: &[Part],
) -> PlacedAnswer
    requires { Fitting question.now at text.now names.now }
    ensures { PutIs (named_at at (names_of text.now names.now) question.now) out.old result out.new }
{
    let size = names_size(names, question[4]);
    if out.len() < question.len() + size {
        return PlacedAnswer::refused(Refusal::ShortOutput, 0);
    }
    let length = put_question(out, question, at, text, names, size);
    PlacedAnswer {
        length: length as u64,
        place: 0,
        number: 0,
    }
}

// No byte is written before every refusal is tested.
pub fn derive(question: &[u8], properties: &[u8], relation: &[u8], out: &mut [u8]) -> PlacedAnswer
    ensures { DeriveIs question.now properties.now relation.now out.old result out.new }
{
    let Some(at) = count_position(question) else {
        return PlacedAnswer::refused(Refusal::BrokenQuestion, 0);
    };
    if !properties_ok(properties) {
        return PlacedAnswer::refused(Refusal::BrokenQuestion, 0);
    }
    match names_of(relation, properties) {
        Ok(names) => put_if_room(out, question, at, relation, names.parts()),
        Err(stop) => PlacedAnswer::refused(stop.refusal, stop.at + 1),
    }
}
