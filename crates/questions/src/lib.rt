// Many questions, lent end to end: whether the bytes are that, where each question stands, and where the article that it asks for is named.
#![tactic(auto)]

ghost use Rattle.std.specs.Prelude.{◌≤◌, length};
ghost use Rattle.questions.specs.Questions.{QuestionEnd, QuestionsAre, QuestionHere, QuestionsHere, NameIs, NamesAre};

use layout::numbers::four_at;
use question::{ask_of, question_ok};

// Where a question stands in the lent bytes.
#[derive(Clone, Copy)]
pub struct Lent {
    pub start: usize,
    pub end: usize,
}

const NOWHERE: Lent = Lent { start: 0, end: 0 };

// There are `count` of them: so many of the stretches count.
// As it is: an array with its count, since the library takes no heap.
#[derive(Drop)]
pub struct Questions {
    pub count: usize,
    pub stretches: [Lent; 500],
}

// The end of the question at `at`, which says its own length.
fn question_end(s: &[u8], at: usize) -> Option<usize>
    requires { at ≤ length s.now }
    ensures { QuestionEnd s.now at result }
{
    if s.len() - at < 5 {
        return None;
    }
    let n = four_at(s, at);
    if s.len() - at < n {
        return None;
    }
    let end = at + n;
    if question_ok(&s[at..end]) {
        Some(end)
    } else {
        None
    }
}

// At most so many questions, with nothing left over.
pub fn questions_of(s: &[u8], most: usize) -> Option<Questions>
    requires { most ≤ 500 }
    ensures { QuestionsAre s.now most result }
{
    let mut stretches = [NOWHERE; 500];
    let mut count = 0;
    let mut at = 0;
    while at < s.len() {
        if most <= count {
            return None;
        }
        let end = question_end(s, at)?;
        stretches[count] = Lent { start: at, end };
        count += 1;
        at = end;
    }
    Some(Questions { count, stretches })
}

// ---- what they ask for

// Where the asked article is named, and the sort of its rows.
#[derive(Clone, Copy)]
pub struct Name {
    pub start: usize,
    pub end: usize,
    pub sort: u8,
}

const NO_NAME: Name = Name {
    start: 0,
    end: 0,
    sort: 0,
};

fn name_in(s: &[u8], lent: Lent) -> Name
    requires { QuestionHere s.now lent }
    ensures { NameIs s.now lent result }
{
    let ask = ask_of(&s[lent.start..lent.end]);
    let article = ask.article;
    let start = lent.start + article.at;
    Name {
        start,
        end: start + article.size,
        sort: ask.sort,
    }
}

// Of each of the questions.
pub fn names_in(s: &[u8], stretches: &[Lent]) -> [Name; 500]
    requires { QuestionsHere s.now stretches.now }
    ensures { NamesAre s.now stretches.now result }
{
    let mut names = [NO_NAME; 500];
    for (j, lent) in stretches.iter().enumerate() {
        names[j] = name_in(s, *lent);
    }
    names
}
