// Which bytes are a question ("The price book"), and an accepted one read by value.
#![tactic(auto)]

pub mod names;

ghost use Rattle.std.specs.Prelude.{◌≡◌, true, ◌+◌, ◌≤◌, [], ◌∷◌, length};
ghost use Rattle.rules.specs.Lists.{is_some};
ghost use Rattle.rules.specs.Question.{question_of};
ghost use Rattle.layout.specs.Ensures.{Says};
ghost use Rattle.question.specs.Asked.{AskAt, AskIs};
ghost use Rattle.question.specs.Parts.{currency_ok, terms_ok};

use crate::names::{granted_end, names_stop};
use days::Day;
use layout::heads::question_head_ok;
use layout::names::name_end;
use layout::numbers::{four_at, is_capital, is_one_of, wide};
use properties::properties_end;

// A question, read by value. The names in it stay there: `granted` is the position of the first granted name's length byte,
// `conditions` how many there are, and the version says whether each has a factor behind it; `properties` is that of the first property, `count` how many there are.
// A currency of three zeros: none is asked.
// As it is: version and sort are the bytes of the question, since the functions on names promise what they do of every version, `is_row` and `survey` of
// every sort.
#[derive(Clone, Copy)]
pub struct Ask {
    pub article: rules::Part,
    pub version: u8,
    pub sort: u8,
    pub currency: rules::Currency,
    pub date: Day,
    pub quantity: u32,
    pub granted: usize,
    pub conditions: usize,
    pub properties: usize,
    pub count: usize,
}

// ---- which bytes are one

// Three capitals, or three zeros where none is asked.
fn currency_ok(x: u8, y: u8, z: u8) -> bool
    ensures { Says (currency_ok (x ∷ y ∷ z ∷ [])) result }
{
    is_capital(x) & is_capital(y) & is_capital(z) | (x == 0) & (y == 0) & (z == 0)
}

// Sort, currency, date and quantity, behind the article's name, which ends at a.
fn terms_ok(s: &[u8], a: usize) -> bool
    requires { a + 12 ≤ length s.now }
    ensures { Says (terms_ok s.now a) result }
{
    let date = four_at(s, a + 4);
    let quantity = four_at(s, a + 8);
    is_one_of(s[a], &[b'S', b'P'])
        & currency_ok(s[a + 1], s[a + 2], s[a + 3])
        & Day::is_day(date as u32)
        & (1 <= quantity)
        & (quantity <= 100000)
}

// Whether s is a question, with nothing behind its last property.
pub fn question_ok(s: &[u8]) -> bool
    ensures { result ≡ is_some (question_of s.now) }
{
    if s.len() < 5 {
        return false;
    }
    let Some(a) = name_end(s, 5, 1, 40) else {
        return false;
    };
    if s.len() - a < 12 {
        return false;
    }
    let Some(g) = granted_end(s, a + 12, s[4]) else {
        return false;
    };
    let Some(end) = properties_end(s, g) else {
        return false;
    };
    question_head_ok(s) & terms_ok(s, a) & (end == s.len())
}

// ---- an accepted one by value

// The article's name ends at a, the granted names end at g.
fn ask_from(s: &[u8], a: usize, g: usize) -> Ask
    requires { AskAt s.now a g }
    ensures { AskIs s.now result }
{
    let article = rules::Part { at: 6, size: a - 6 };
    let currency = rules::Currency(s[a + 1], s[a + 2], s[a + 3]);
    Ask {
        article,
        version: s[4],
        sort: s[a],
        currency,
        date: Day(four_at(s, a + 4) as u32),
        quantity: four_at(s, a + 8) as u32,
        granted: a + 12 + 1,
        conditions: wide(s[a + 12]),
        properties: g + 1,
        count: wide(s[g]),
    }
}

// Only the granted names' lengths are walked over again, to find the properties behind them.
pub fn ask_of(s: &[u8]) -> Ask
    requires { is_some (question_of s.now) ≡ true }
    ensures { AskIs s.now result }
{
    let a = 6 + wide(s[5]);
    let count = a + 12;
    let g = names_stop(s, count + 1, wide(s[count]), s[4]);
    ask_from(s, a, g)
}
