// Bytes of a relation text, stretches of one sort of them, and the blanks between its words.
ghost use Rattle.std.specs.Prelude.{◌+◌, ◌≤◌, ◌||◌, ℕ, ◌<◌, true, false, length, slice_index};
ghost use Rattle.relation_rules.specs.Grammar.{is_blank, is_letter, is_digit, word_byte, sign_byte, minus, capital};
ghost use Rattle.layout.specs.Ensures.{Says, Number};
ghost use Rattle.relation_words.specs.Words.{Gap};

pub fn is_blank(b: u8) -> bool
    ensures { Says (is_blank b) result }
{
    matches!(b, b' ' | b'\t' | b'\n' | b'\r')
}

pub fn is_letter(b: u8) -> bool
    ensures { Says (is_letter b) result }
{
    b.is_ascii_alphabetic() | (b == b'_')
}

pub fn is_digit(b: u8) -> bool
    ensures { Says (is_digit b) result }
{
    b.is_ascii_digit()
}

pub fn is_word_byte(b: u8) -> bool
    ensures { Says (word_byte b) result }
{
    is_letter(b) | is_digit(b)
}

// A number begins so.
pub fn is_figure(b: u8) -> bool
    ensures { Says (is_digit b || minus b) result }
{
    is_digit(b) | (b == b'-')
}

pub fn is_sign_byte(b: u8) -> bool
    ensures { Says (sign_byte b) result }
{
    matches!(b, b'<' | b'=' | b'>')
}

// A small letter's capital; any other byte as it is.
pub fn capital_of(b: u8) -> u8
    ensures { Number (capital b) 256 result }
{
    b.to_ascii_uppercase()
}

// Where the bytes end that pass a test, from `at` on.
pub fn stretch_end<Test: Fn(u8) -> bool>(text: &[u8], at: usize, test: Test) -> usize
    requires at_in_bounds { at ≤ length text.now }
    requires callable { (f : _) (b : _) → Test.pre f b }
    ensures on { at ≤ result }
    ensures most { result ≤ length text.now }
    ensures each { (i : ℕ) → at + i < result → Test.post test (slice_index text.now (at + i)) true }
    ensures next { result < length text.now → Test.post test (slice_index text.now result) false }
{
    match text[at..].iter().position(|b| !test(*b)) {
        Some(size) => at + size,
        None => text.len(),
    }
}

// The first position from `at` on that has no blank.
pub fn blanks(text: &[u8], at: usize) -> usize
    requires { at ≤ length text.now }
    ensures { Gap text.now at result }
{
    stretch_end(text, at, is_blank)
}
