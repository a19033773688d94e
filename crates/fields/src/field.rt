// A field of a line: where its text stands, how long the text is, and where the line goes on.
ghost use Rattle.std.specs.Prelude.{◌≡◌, ◌≤◌, ◌<◌, ◌==◌, not, length, drop, MatchOption};
ghost use Rattle.std.specs.List.{prefix_len};
ghost use Rattle.file_rules.specs.Fields.{inside, field, next_field};
ghost use Rattle.fields.specs.Given.{GivesNone};
ghost use Rattle.fields.specs.Field.{Closing, CutAt, PastSpaces, Bare, Opened, FieldIs, NextIs};

// What stands from `from` to `to` is the field's text, unless it is longer than the text: then each quote in it stands twice.
#[derive(Clone, Copy, PartialEq, Eq)]
pub struct Field {
    pub from: usize,
    pub to: usize,
    pub count: usize,
    pub next: usize,
}

// The closing quote of a field, and how many bytes its text has.
#[derive(Clone, Copy, PartialEq, Eq)]
pub struct Closed {
    pub to: usize,
    pub count: usize,
}

// The field whose opening quote stands before `at`: two quotes are one of its text, and one alone closes it.
// As it is: each turn goes on by one byte or by two, which no iterator over bytes does.
fn closing(line: &[u8], at: usize) -> Option<Closed>
    requires { at ≤ length line.now }
    ensures { MatchOption result (GivesNone (inside (drop at line.now))) (Closing line.now at) }
{
    let mut i = at;
    let mut n = 0;
    // It steps by one byte or by two, so that a range or an iterator would be no plainer.
    while i < line.len() {
        if line[i] == b'"' {
            if line.len() - i < 2 {
                return Some(Closed { to: i, count: n });
            }
            if line[i + 1] != b'"' {
                return Some(Closed { to: i, count: n });
            }
            i += 2;
            n += 1;
        } else {
            i += 1;
            n += 1;
        }
    }
    None
}

// How many bytes stand before the first such one.
fn before(s: &[u8], byte: u8) -> usize
    ensures is { result ≡ prefix_len (λ b. not (b == byte)) s.now }
    ensures within { result ≤ length s.now }
{
    s.iter().take_while(|b| **b != byte).count()
}

// Where the next such byte stands, or the end.
pub fn cut_at(line: &[u8], at: usize, byte: u8) -> usize
    requires { at ≤ length line.now }
    ensures { CutAt byte line.now at result }
{
    let n = before(&line[at..], byte);
    at + n
}

// How many spaces come first.
fn spaces(s: &[u8]) -> usize
    ensures is { result ≡ prefix_len (λ b. b == 32) s.now }
    ensures within { result ≤ length s.now }
{
    s.iter().take_while(|b| **b == b' ').count()
}

fn past_spaces(line: &[u8], at: usize) -> usize
    requires { at ≤ length line.now }
    ensures { PastSpaces line.now at result }
{
    let n = spaces(&line[at..]);
    at + n
}

// A field without quotes around it.
fn bare_field(line: &[u8], at: usize) -> Field
    requires { Bare line.now at }
    ensures { FieldIs line.now at result }
{
    let to = cut_at(line, at, b';');
    Field {
        from: at,
        to,
        count: to - at,
        next: to,
    }
}

// A field with its opening quote at `at`; none, where no quote closes it.
fn quoted_field(line: &[u8], at: usize) -> Option<Field>
    requires { Opened line.now at }
    ensures { MatchOption result (GivesNone (field (drop at line.now))) (FieldIs line.now at) }
{
    let from = at + 1;
    let closed = closing(line, from)?;
    let next = past_spaces(line, closed.to + 1);
    Some(Field {
        from,
        to: closed.to,
        count: closed.count,
        next,
    })
}

// The field that starts at `at`.
pub fn field_at(line: &[u8], at: usize) -> Option<Field>
    requires { at ≤ length line.now }
    ensures { MatchOption result (GivesNone (field (drop at line.now))) (FieldIs line.now at) }
{
    if line.len() <= at {
        return Some(bare_field(line, at));
    }
    if line[at] == b'"' {
        return quoted_field(line, at);
    }
    Some(bare_field(line, at))
}

// The field behind the semicolon at `at`.
pub fn next_field(line: &[u8], at: usize) -> Option<Field>
    requires { at ≤ length line.now }
    ensures { MatchOption result (GivesNone (next_field (drop at line.now))) (NextIs line.now at) }
{
    if line.len() <= at {
        return None;
    }
    if line[at] == b';' {
        return field_at(line, at + 1);
    }
    None
}
