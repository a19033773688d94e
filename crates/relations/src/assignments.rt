// An assignment: the variable, its string and the condition that grants it.
ghost use Rattle.std.specs.Prelude.{◌≤◌, length};
ghost use Rattle.relation_truth.specs.Values.{held_in};
ghost use Rattle.relations.specs.Told.{Looks};
ghost use Rattle.relations.specs.Assignments.{HeadRead, IfRead, AssignmentRead};

use crate::conditions::{Join, Next};
use crate::expected::{BECOMES, IF, STRING, VARIABLE, word_of};
use crate::reader::Reader;
use crate::told::Refused;
use relation_words::bytes::blanks;
use relation_words::tokens::{token_at, token_here};
use rules::Part;

// The variable, which stands at `variable`, and its string, read up to `to`.
#[derive(Clone, Copy)]
pub struct Head {
    pub to: usize,
    pub variable: usize,
    pub name: Part,
}

fn head_at(text: &[u8], at: usize) -> Result<Head, Refused>
    requires { at ≤ length text.now }
    ensures { HeadRead text.now at result }
{
    let variable = token_at(text, at, VARIABLE)?;
    let becomes = token_at(text, variable.to, BECOMES)?;
    let string = token_at(text, becomes.to, STRING)?;
    Ok(Head {
        to: string.to,
        variable: variable.from,
        name: Part {
            at: string.from + 1,
            size: string.to - string.from - 2,
        },
    })
}

// Behind the string: IF, which ends here, or what follows the assignment.
#[derive(Clone, Copy)]
pub enum Behind {
    If(usize),
    Join(Join),
}

fn if_at(text: &[u8], at: usize) -> Result<Behind, Refused>
    requires { at ≤ length text.now }
    ensures { IfRead text.now at result }
{
    let from = blanks(text, at);
    if text.len() <= from {
        return Ok(Behind::Join(Join {
            next: Next::End,
            after: from,
        }));
    }
    let word = token_here(text, from, IF)?;
    if word_of(word.kind) == 1 {
        return Ok(Behind::If(word.to));
    }
    Ok(Behind::Join(Join {
        next: Next::Closed,
        after: word.to,
    }))
}

// An assignment read up to `to`, and what follows it. Its name is granted, or not.
#[derive(Clone, Copy)]
pub struct Assigned {
    pub to: usize,
    pub join: Join,
    pub variable: usize,
    pub name: Part,
    pub granted: bool,
}

impl<'a> Reader<'a> {
    pub fn assignment(&self, at: usize) -> Result<Assigned, Refused>
        requires looks { Looks self.now }
        requires at_in_bounds { at ≤ length self.now.text.now }
        ensures { AssignmentRead (held_in self.now.properties.now) self.now.text.now at result }
    {
        let head = head_at(self.text, at)?;
        match if_at(self.text, head.to)? {
            Behind::If(after) => {
                let chain = self.or_chain(after, 16)?;
                Ok(Assigned {
                    to: chain.to,
                    join: Join {
                        next: chain.next,
                        after: chain.after,
                    },
                    variable: head.variable,
                    name: head.name,
                    granted: chain.truth.is_true(),
                })
            }
            Behind::Join(join) => Ok(Assigned {
                to: head.to,
                join,
                variable: head.variable,
                name: head.name,
                granted: true,
            }),
        }
    }
}
