// The properties of a question: which bytes are properties, and one of an accepted question by value.
#![tactic(auto)]

ghost use Rattle.std.specs.Prelude.{◌≤◌, ◌&&◌, length};
ghost use Rattle.rules.specs.Lists.{all};
ghost use Rattle.rules.specs.Layout.{◌such◌};
ghost use Rattle.rules.specs.Bytes.{name, name_byte};
ghost use Rattle.rules.specs.Question.{property, value_for, value_byte};
ghost use Rattle.layout.specs.Ensures.{Says};
ghost use Rattle.layout.specs.Reads.{name_stop, name_at};
ghost use Rattle.layout.specs.Counted.{Ends, Stands};
ghost use Rattle.layout.specs.Ends.{EndOrNone};
ghost use Rattle.properties.specs.Properties.{property_at, property_stop, PropertiesEnd, StateIs, PropertyIs};

use layout::names::{is_name_byte, name_end};
use layout::numbers::{is_one_of, wide};
use rules::{Part, State};

// A property read by value. Its value stays in the question, and where that ends the property ends.
#[derive(Clone, Copy)]
pub struct PropertyParts {
    pub width: usize,
    pub state: State,
    pub value: Part,
}

// ---- which bytes are properties

fn is_value_byte(b: u8) -> bool
    ensures { Says (name_byte b && value_byte b) result }
{
    is_name_byte(b) & !is_one_of(b, &[b' ', 160, b'\\'])
}

// A flag to the end, with no way out before it: many bytes are then tested at a time.
fn all_value_bytes(s: &[u8]) -> bool
    ensures { Says (all (λ b. name_byte b && value_byte b) s.now) result }
{
    s.iter().fold(true, |ok, b| ok & is_value_byte(*b))
}

// Where the value of a valued property ends, if one stands there: a name of its own kind of bytes, which are read once.
fn valued_end(s: &[u8], at: usize, width: usize) -> Option<usize>
    requires { at ≤ length s.now }
    ensures { EndOrNone (Ends (name 1 width such all value_byte) name_at name_stop s.now at) result }
{
    if s.len() <= at {
        return None;
    }
    let n = wide(s[at]);
    let from = at + 1;
    if s.len() - from < n {
        return None;
    }
    let end = from + n;
    if (1 <= n) & (n <= width) & all_value_bytes(&s[from..end]) {
        Some(end)
    } else {
        None
    }
}

fn value_end(s: &[u8], at: usize, width: usize, state: u8) -> Option<usize>
    requires { at ≤ length s.now }
    ensures { EndOrNone (Ends (value_for width state) name_at name_stop s.now at) result }
{
    if state == 0 {
        return valued_end(s, at, width);
    }
    name_end(s, at, 0, 0)
}

// Where the property at `at` ends, if one stands there.
fn property_end(s: &[u8], at: usize) -> Option<usize>
    requires { at ≤ length s.now }
    ensures { EndOrNone (Ends property property_at property_stop s.now at) result }
{
    if s.len() - at < 2 {
        return None;
    }
    let width = wide(s[at]);
    let state = s[at + 1];
    let end = value_end(s, at + 2, width, state)?;
    if (1 <= width) & (width <= 30) & is_one_of(state, &[0, 1, 2]) {
        Some(end)
    } else {
        None
    }
}

// Where the properties end whose count stands at `at`, if as many stand there.
pub fn properties_end(s: &[u8], at: usize) -> Option<usize>
    requires { at ≤ length s.now }
    ensures { EndOrNone (PropertiesEnd s.now at) result }
{
    if s.len() <= at {
        return None;
    }
    let n = wide(s[at]);
    if 32 < n {
        return None;
    }
    let mut end = at + 1;
    for _ in 0..n {
        end = property_end(s, end)?;
    }
    Some(end)
}

// ---- of an accepted question

fn state_of(n: u8) -> State
    requires { n ≤ 2 }
    ensures { StateIs n result }
{
    match n {
        0 => State::Valued,
        1 => State::Hidden,
        _ => State::Unselected,
    }
}

// The property that stands at `at`: a byte for its width, one for its state, and its value behind a length byte.
pub fn property_of(s: &[u8], at: usize) -> PropertyParts
    requires { Stands property property_at property_stop s.now at }
    ensures { PropertyIs s.now at result }
{
    let state = state_of(s[at + 1]);
    let value = Part {
        at: at + 3,
        size: wide(s[at + 2]),
    };
    PropertyParts {
        width: wide(s[at]),
        state,
        value,
    }
}
