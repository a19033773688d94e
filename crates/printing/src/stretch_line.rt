// A stretch on a line of its own.
ghost use Rattle.std.specs.Prelude.{◌+◌, ◌≤◌, ◌<◌, ◌≡◌, [], ◌∷◌, ◌++◌, length};
ghost use Rattle.rules.specs.Letters.{text};
ghost use Rattle.rules.specs.Question.{letters_of};
ghost use Rattle.rules.specs.Program.{decimal, currency_text, stretch_text};
ghost use Rattle.stretches.specs.Stretches.{as_stretch};
ghost use Rattle.layout.specs.Ensures.{PutsTo};

use crate::decimal::{put_digits, put_signed};
use layout::strings::put_bytes;
use rules::Currency;
use stretches::Stretch;

// A number and a blank.
fn put_number(out: &mut [u8], at: usize, n: u64) -> usize
    requires { at + 21 ≤ length out.old }
    ensures { PutsTo out.old at (decimal n ++ text " ") out.new result }
{
    let end = put_digits(out, at, 20, n);
    put_bytes(out, end, b" ")
}

// Three letters, or three strokes for a refused day.
#[tactic(auto, using(crate::proofs::LineLaws::word_kept, crate::proofs::LineLaws::word_struck))]
fn word_of(refusal: u8, currency: Currency) -> Currency
    ensures { letters_of result ≡ currency_text refusal (letters_of currency) }
{
    if refusal == 0 {
        return currency;
    }
    Currency(b'-', b'-', b'-')
}

// They and a blank.
fn put_word(out: &mut [u8], at: usize, word: Currency) -> usize
    requires { at + 4 ≤ length out.old }
    ensures { PutsTo out.old at (letters_of word ++ text " ") out.new result }
{
    put_bytes(out, at, &[word.0, word.1, word.2, b' '])
}

// First day, last day, refusal, currency, unit total.
pub fn put_stretch(out: &mut [u8], at: usize, stretch: Stretch) -> usize
    requires { at + 89 ≤ length out.old }
    ensures { PutsTo out.old at (stretch_text (as_stretch stretch)) out.new result }
{
    let outcome = stretch.outcome;
    let word = word_of(outcome.refusal, outcome.currency);
    let a = put_number(out, at, stretch.first.0 as u64);
    let b = put_number(out, a, stretch.last.0 as u64);
    let c = put_number(out, b, outcome.refusal as u64);
    let d = put_word(out, c, word);
    let e = put_signed(out, d, outcome.unit.0);
    put_bytes(out, e, b"\n")
}
