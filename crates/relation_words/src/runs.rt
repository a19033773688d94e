// How far a token reaches from its first byte: words of a list, names, strings; and digits as a number.
ghost use Rattle.std.specs.Prelude.{◌<◌, ◌≤◌, ◌≡◌, true, length, get_or};
ghost use Rattle.rules.specs.Lists.{all};
ghost use Rattle.relation_rules.specs.Grammar.{decimal, is_digit};
ghost use Rattle.layout.specs.Ensures.{Number};
ghost use Rattle.relation_words.specs.Heard.{first_digit, Reaches, TokenRun, WordRun, QuoteRun};

use crate::bytes::{is_digit, is_figure, is_letter, is_sign_byte, is_word_byte, stretch_end};

// Whether a token that begins with b, and is no string, reaches over c.
pub fn goes_on(b: u8, c: u8) -> bool
    ensures { Reaches b c result }
{
    if is_letter(b) | (b == b'$') {
        return is_word_byte(c);
    }
    if is_figure(b) {
        return is_digit(c);
    }
    is_sign_byte(b) & is_sign_byte(c)
}

// Where a token ends that begins at `at`, and is no string.
pub fn token_end(text: &[u8], at: usize) -> usize
    requires { at < length text.now }
    ensures { TokenRun text.now at result }
{
    let b = text[at];
    stretch_end(text, at + 1, |c| goes_on(b, c))
}

// Where a word ends that begins at `at`.
pub fn word_end(text: &[u8], at: usize) -> usize
    requires { at < length text.now }
    ensures { WordRun text.now at result }
{
    stretch_end(text, at + 1, is_word_byte)
}

// The quote behind the one at `at`, or the end.
pub fn quote_end(text: &[u8], at: usize) -> usize
    requires { at < length text.now }
    ensures { QuoteRun text.now at result }
{
    stretch_end(text, at + 1, |b| b != b'\'')
}

// Where the first digit stands of a number that begins at `at`.
pub fn first_digit(text: &[u8], at: usize) -> usize
    requires { at < length text.now }
    ensures { result ≡ first_digit (get_or text.now at 0) at }
{
    if text[at] == b'-' { at + 1 } else { at }
}

// At most eighteen digits as a number.
pub fn size_of(digits: &[u8]) -> usize
    requires all { all is_digit digits.now ≡ true }
    requires few { length digits.now ≤ 18 }
    ensures { Number (decimal 0 digits.now) 1000000000000000000 result }
{
    let mut size = 0;
    for b in digits {
        size = size * 10 + usize::from(*b - b'0');
    }
    size
}
