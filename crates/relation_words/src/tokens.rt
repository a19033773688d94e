// A token at a position of a text, where some words, a name, a string or a number may come.
// `text` and `at` are no struct: each token begins at another position of the same text, so a struct would be made anew for each call.
ghost use Rattle.std.specs.Prelude.{◌≡◌, ◌≤◌, ◌<◌, true, map, eqb, length, get_or};
ghost use Rattle.rules.specs.Lists.{any, keep, same};
ghost use Rattle.relation_rules.specs.Grammar.{capital, is_letter, is_quote, reserved_words};
ghost use Rattle.layout.specs.Ensures.{Says};
ghost use Rattle.relation_words.specs.Heard.{wanted_of, Heard, HeardOn, WordHeard, NameHeard, StringHeard, NumberHeard, FigureAt, ByteAt, NoWordAt, WordStops};

use crate::bytes::{blanks, is_digit, is_figure, is_letter, stretch_end};
use crate::lists::{begins_one, which_word};
use crate::runs::{first_digit, quote_end, size_of, token_end, word_end};

/// What a token is.
#[derive(Clone, Copy, PartialEq, Eq)]
pub enum Kind {
    /// The word of the list with this number, counted from 1.
    Word(usize),
    Name,
    /// A string with its quotes.
    Quoted,
    /// A number by its sign and size.
    Figure { below: bool, size: usize },
}

/// A token that may come: it stands from `from` to `to`.
#[derive(Clone, Copy, PartialEq, Eq)]
pub struct Token {
    pub kind: Kind,
    pub from: usize,
    pub to: usize,
}

/// Nothing that may come: the first byte that may not stands at `at`.
#[derive(Clone, Copy, PartialEq, Eq)]
pub struct Stop {
    pub at: usize,
}

/// What may come: words of a list, in capitals, and a name, a string or a number if such may.
#[derive(Clone, Copy)]
pub struct Wants<'a> {
    pub words: &'a [&'a [u8]],
    pub name: bool,
    pub quoted: bool,
    pub figure: bool,
}

// A token that is no word of the list, read byte by byte: the first byte that no word goes on with may not come.
fn word_by_bytes(text: &[u8], at: usize, to: usize, words: &[&[u8]]) -> Stop
    requires { NoWordAt (map (λ w. w.now) words.now) text.now at to }
    ensures { WordStops (map (λ w. w.now) words.now) text.now at result.at }
{
    for i in at..to {
        if !begins_one(&text[at..i + 1], words) {
            return Stop { at: i };
        }
    }
    Stop { at: to }
}

// A token that can only be a word of the list.
fn word_here(text: &[u8], at: usize, words: &[&[u8]]) -> Result<Token, Stop>
    requires { ByteAt text.now at }
    ensures { WordHeard (map (λ w. w.now) words.now) text.now at result }
{
    let b = text[at];
    if is_figure(b) | (b == b'\'') {
        return Err(Stop { at });
    }
    let to = token_end(text, at);
    let Some(place) = which_word(&text[at..to], words) else {
        return Err(word_by_bytes(text, at, to, words));
    };
    Ok(Token {
        kind: Kind::Word(place + 1),
        from: at,
        to,
    })
}

// The reserved words of so many bytes. Most names have another length than they, and are told by it.
fn reserved_of(size: usize) -> &'static [&'static [u8]]
    ensures { map (λ w. w.now) result.now ≡ keep (λ w. eqb (length w) size) reserved_words }
{
    match size {
        2 => &[
            b"EQ", b"GE", b"GT", b"IF", b"IN", b"LE", b"LT", b"NE", b"OR",
        ],
        3 => &[b"AND", b"BAN", b"NOT"],
        9 => &[b"SPECIFIED"],
        15 => &[b"SET_PCKG_FACTOR"],
        18 => &[b"SET_PRICING_FACTOR"],
        _ => &[],
    }
}

fn is_reserved(word: &[u8]) -> bool
    ensures { Says (any (same (map capital word.now)) reserved_words) result }
{
    which_word(word, reserved_of(word.len())).is_some()
}

// A word where a name may come: a name, if it is not reserved.
fn name_here(text: &[u8], at: usize, words: &[&[u8]]) -> Result<Token, Stop>
    requires byte_at { ByteAt text.now at }
    requires says { Says (is_letter (get_or text.now at 0)) true }
    ensures { NameHeard (map (λ w. w.now) words.now) text.now at result }
{
    let to = word_end(text, at);
    let word = &text[at..to];
    if !is_reserved(word) {
        return Ok(Token {
            kind: Kind::Name,
            from: at,
            to,
        });
    }
    match which_word(word, words) {
        Some(place) => Ok(Token {
            kind: Kind::Word(place + 1),
            from: at,
            to,
        }),
        None => Err(Stop { at: to }),
    }
}

fn string_here(text: &[u8], at: usize) -> Result<Token, Stop>
    requires byte_at { ByteAt text.now at }
    requires says { Says (is_quote (get_or text.now at 0)) true }
    ensures { StringHeard text.now at result }
{
    let quote = quote_end(text, at);
    if text.len() <= quote {
        return Err(Stop { at: quote });
    }
    Ok(Token {
        kind: Kind::Quoted,
        from: at,
        to: quote + 1,
    })
}

// One to eighteen digits, behind a minus sign or not. No byte behind a nineteenth is read.
fn number_here(text: &[u8], at: usize) -> Result<Token, Stop>
    requires byte_at { ByteAt text.now at }
    requires figure_at { FigureAt text.now at }
    ensures { NumberHeard text.now at result }
{
    let below = text[at] == b'-';
    let first = first_digit(text, at);
    let most = text.len().min(first + 19);
    let to = stretch_end(&text[..most], at + 1, is_digit);
    let digits = &text[first..to];
    if 18 < digits.len() {
        return Err(Stop { at: first + 18 });
    }
    if digits.is_empty() {
        return Err(Stop { at: to });
    }
    let size = size_of(digits);
    Ok(Token {
        kind: Kind::Figure { below, size },
        from: at,
        to,
    })
}

/// The token at a byte that is no blank.
pub fn token_here(text: &[u8], at: usize, wants: Wants<'_>) -> Result<Token, Stop>
    requires { ByteAt text.now at }
    ensures { Heard (wanted_of wants.entry) text.now at result }
{
    let b = text[at];
    if wants.name & is_letter(b) {
        return name_here(text, at, wants.words);
    }
    if wants.quoted & (b == b'\'') {
        return string_here(text, at);
    }
    if wants.figure & is_figure(b) {
        return number_here(text, at);
    }
    word_here(text, at, wants.words)
}

/// The same behind blanks, where the text may not end.
pub fn token_at(text: &[u8], at: usize, wants: Wants<'_>) -> Result<Token, Stop>
    requires { at ≤ length text.now }
    ensures { HeardOn (wanted_of wants.entry) text.now at result }
{
    let from = blanks(text, at);
    if text.len() <= from {
        return Err(Stop { at: from });
    }
    token_here(text, from, wants)
}
