// The first pass over a price file: the number of its first bad line, or how long its records will be. Nothing is written.
#![tactic(auto)]

ghost use Rattle.std.specs.Prelude.{◌+◌, ◌≤◌, ◌≡◌, MatchOption};
ghost use Rattle.file_rules.specs.PriceLine.{brought};
ghost use Rattle.fields.specs.Given.{GivesNone};
ghost use Rattle.judging.specs.Judge.{BroughtIs, Less, AnswerIs};

use fields::field::cut_at;
use fields::lines::brings_nothing;
use price_line::{PriceLine, price_line};
use rules::{PlacedAnswer, Refusal};

// The bytes of a price record, by those of its two names.
fn record_size(row: PriceLine) -> usize
    requires article_short { row.article.count ≤ 40 }
    requires condition_short { row.condition.count ≤ 20 }
    ensures { result ≡ 34 + row.article.count + row.condition.count }
{
    34 + row.article.count + row.condition.count
}

// How many bytes of records a line brings; `None` for a bad line.
fn brought_by(line: &[u8]) -> Option<usize>
    ensures { MatchOption result (GivesNone (brought line.now)) (BroughtIs line.now) }
{
    if brings_nothing(line) {
        return Some(0);
    }
    let row = price_line(line)?;
    Some(record_size(row))
}

// What is left of the room; `None`, where there was not enough.
fn less(left: Option<usize>, size: usize) -> Option<usize>
    ensures { Less left size result }
{
    left?.checked_sub(size)
}

// Line by line. A bad line counts before missing room, so the pass goes on where the room is used up.
pub fn judge(file: &[u8], room: usize) -> PlacedAnswer
    ensures { AnswerIs file.now room result }
{
    let mut at = 0;
    let mut n = 0;
    let mut left = Some(room);
    while at < file.len() {
        let end = cut_at(file, at, b'\n');
        let Some(size) = brought_by(&file[at..end]) else {
            return PlacedAnswer::refused(Refusal::BadRow, n + 1);
        };
        left = less(left, size);
        n += 1;
        at = end + 1;
    }
    match left {
        Some(left) => PlacedAnswer {
            length: (room - left) as u64,
            place: 0,
            number: 0,
        },
        None => PlacedAnswer::refused(Refusal::ShortOutput, 0),
    }
}
