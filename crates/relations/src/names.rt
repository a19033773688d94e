// The names that a relation text derives from properties.
ghost use Rattle.std.specs.Prelude.{◌≤◌, ◌<◌, ◌≡◌, ◌++◌, [], ◌∷◌, true, length};
ghost use Rattle.rules.specs.Lists.{is_some};
ghost use Rattle.layout.specs.Ensures.{Says};
ghost use Rattle.relation_rules.specs.Truth.{grantable, properties_of};
ghost use Rattle.relation_truth.specs.Values.{held_in};
ghost use Rattle.relations.specs.Assignments.{Within};
ghost use Rattle.relations.specs.Names.{NamesIs, Grows, parts_in};

use crate::assignments::Assigned;
use crate::conditions::Next;
use crate::reader::Reader;
use crate::told::Refused;
use layout::names::all_name_bytes;
use property_list::slots::slots_of;
use rules::{Part, Refusal};

// At most 32 parts of the text: the first `count`.
// As it is: an array with its count, since the library takes no heap.
#[derive(Drop)]
pub struct Names {
    pub count: usize,
    pub names: [Part; 32],
}

fn no_names() -> Names
    ensures { result.count ≡ 0 }
{
    Names {
        count: 0,
        names: [Part { at: 0, size: 0 }; 32],
    }
}

impl Names {
    pub fn parts(&self) -> &[Part]
        requires { self.now.count ≤ 32 }
        ensures { result.now ≡ parts_in self.now }
    {
        &self.names[..self.count]
    }
}

// A name that a question can grant.
fn is_grantable(s: &[u8]) -> bool
    ensures { Says (grantable s.now) result }
{
    ((1 <= s.len()) & (s.len() <= 20)) & all_name_bytes(s)
}

// With one assignment more: its name behind the others, if it is granted. It is unfit where no question can grant it, or where it is one too
// many; the first refusal stays.
fn with_name(text: &[u8], so_far: Result<Names, Refused>, one: Assigned) -> Result<Names, Refused>
    requires stands { one.variable ≤ length text.now }
    requires within { Within text.now one.name }
    ensures { Grows text.now so_far one result }
{
    let mut names = so_far?;
    if !one.granted {
        return Ok(names);
    }
    let name = one.name;
    let good = is_grantable(&text[name.at..name.at + name.size]);
    if !good | (32 <= names.count) {
        return Err(Refused {
            refusal: Refusal::UnfitName,
            at: one.variable,
        });
    }
    names.names[names.count] = name;
    names.count += 1;
    Ok(names)
}

pub fn names_of(text: &[u8], properties: &[u8]) -> Result<Names, Refused>
    requires { is_some (properties_of properties.now) ≡ true }
    ensures { NamesIs text.now (held_in properties.now) result }
{
    let slots = slots_of(properties);
    let reader = Reader {
        text,
        properties,
        slots: &slots,
    };
    let mut at = 0;
    let mut names = Ok(no_names());
    loop {
        let one = reader.assignment(at)?;
        names = with_name(text, names, one);
        if let Next::End = one.join.next {
            return names;
        }
        at = one.join.after;
    }
}
