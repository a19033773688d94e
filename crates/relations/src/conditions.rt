// Conditions: or-chains of and-chains of single conditions. They call one another; at each call the depth that is left falls, or the text.
ghost use Rattle.std.specs.Prelude.{◌-◌, ◌≤◌};
ghost use Rattle.relation_words.specs.Heard.{ByteAt, Heard};
ghost use Rattle.relation_truth.specs.Values.{held_in};
ghost use Rattle.relations.specs.Expected.{wants_join};
ghost use Rattle.relations.specs.Told.{Looks};
ghost use Rattle.relations.specs.Reading.{SingleRead, AndRead, OrRead, JoinRead, ClosedAs, TurnedAs, DepthAt};

use crate::expected::{JOIN_INSIDE, JOIN_OUTSIDE, word_of};
use crate::reader::Reader;
use crate::starts::{First, start_of};
use crate::told::{Read, Refused};
use relation_truth::Truth;
use relation_words::bytes::blanks;
use relation_words::tokens::{Stop, Token, token_here};
use rules::Refusal;

// What comes behind a single condition.
#[derive(Clone, Copy)]
pub enum Next {
    And,
    Or,
    // A comma, or the parenthesis that closes.
    Closed,
    End,
}

// It ends at `after`.
#[derive(Clone, Copy)]
pub struct Join {
    pub next: Next,
    pub after: usize,
}

// `depth` parentheses may still open: where all sixteen may, a comma closes the chain.
fn closers(text: &[u8], from: usize, depth: u8) -> Result<Token, Stop>
    requires byte_at { ByteAt text.now from }
    requires depth_bound { depth ≤ 16 }
    ensures { Heard (wants_join (16 - depth)) text.now from result }
{
    if depth == 16 {
        token_here(text, from, JOIN_OUTSIDE)
    } else {
        token_here(text, from, JOIN_INSIDE)
    }
}

pub fn joiner(text: &[u8], at: usize, depth: u8) -> Result<Join, Refused>
    requires { DepthAt text.now at depth }
    ensures { JoinRead (16 - depth) text.now at result }
{
    let from = blanks(text, at);
    if text.len() <= from {
        return Ok(Join {
            next: Next::End,
            after: from,
        });
    }
    let word = closers(text, from, depth)?;
    let next = match word_of(word.kind) {
        1 => Next::And,
        2 => Next::Or,
        _ => Next::Closed,
    };
    Ok(Join {
        next,
        after: word.to,
    })
}

// A chain read up to `to`, its truth, and behind it `next`, up to `after`.
#[derive(Clone, Copy)]
pub struct Chain {
    pub to: usize,
    pub truth: Truth,
    pub next: Next,
    pub after: usize,
}

// Behind a parenthesis: what is inside, if it is closed.
fn closed(inside: Chain) -> Result<Read, Refused>
    ensures { ClosedAs inside result }
{
    match inside.next {
        Next::Closed => Ok(Read {
            to: inside.after,
            truth: inside.truth,
        }),
        _ => Err(Refused {
            refusal: Refusal::BadRelation,
            at: inside.after,
        }),
    }
}

// Behind so many NOTs that they turn it, or do not.
fn turned_by(turned: bool, behind: Read) -> Read
    ensures { TurnedAs turned behind result }
{
    if turned {
        return Read {
            to: behind.to,
            truth: behind.truth.not(),
        };
    }
    behind
}

impl<'a> Reader<'a> {
    // Its NOTs are passed over first, however many there are; only a parenthesis calls back into a chain.
    #[cycle(and_chain_or_chain_single)]
    pub fn single(&self, at: usize, depth: u8) -> Result<Read, Refused>
        requires looks { Looks self.now }
        requires depth_at { DepthAt self.now.text.now at depth }
        ensures { SingleRead (held_in self.now.properties.now) (16 - depth) self.now.text.now at result }
    {
        let start = start_of(self.text, at)?;
        match start.first {
            First::Parenthesis => {
                if depth == 0 {
                    return Err(Refused {
                        refusal: Refusal::DeepRelation,
                        at: start.from,
                    });
                }
                let inside = self.or_chain(start.from + 1, depth - 1)?;
                let whole = closed(inside)?;
                Ok(turned_by(start.turned, whole))
            }
            First::Token(first) => {
                let plain = self.simple(start.at, first)?;
                Ok(turned_by(start.turned, plain))
            }
        }
    }

    #[cycle(and_chain_or_chain_single)]
    pub fn and_chain(&self, at: usize, depth: u8) -> Result<Chain, Refused>
        requires looks { Looks self.now }
        requires depth_at { DepthAt self.now.text.now at depth }
        ensures { AndRead (held_in self.now.properties.now) (16 - depth) self.now.text.now at result }
    {
        let mut from = at;
        let mut truth = Truth::True;
        loop {
            let one = self.single(from, depth)?;
            truth = truth.and(one.truth);
            let join = joiner(self.text, one.to, depth)?;
            match join.next {
                Next::And => from = join.after,
                next => {
                    return Ok(Chain {
                        to: one.to,
                        truth,
                        next,
                        after: join.after,
                    });
                }
            }
        }
    }

    #[cycle(and_chain_or_chain_single)]
    pub fn or_chain(&self, at: usize, depth: u8) -> Result<Chain, Refused>
        requires looks { Looks self.now }
        requires depth_at { DepthAt self.now.text.now at depth }
        ensures { OrRead (held_in self.now.properties.now) (16 - depth) self.now.text.now at result }
    {
        let mut from = at;
        let mut truth = Truth::False;
        loop {
            let chain = self.and_chain(from, depth)?;
            truth = truth.or(chain.truth);
            match chain.next {
                Next::Or => from = chain.after,
                next => {
                    return Ok(Chain {
                        to: chain.to,
                        truth,
                        next,
                        after: chain.after,
                    });
                }
            }
        }
    }
}
