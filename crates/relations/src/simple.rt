// Conditions without a parenthesis of their own: comparisons, SPECIFIED, IN.
ghost use Rattle.std.specs.Prelude.{◌≤◌, length};
ghost use Rattle.relation_rules.specs.Truth.{operand_value};
ghost use Rattle.relation_truth.specs.Values.{held_in, operand_of, OperandIn, ValueIs, value_in};
ghost use Rattle.relations.specs.Told.{Looks};
ghost use Rattle.relations.specs.Reading.{OperandAt, NoName, EqualTo, ValuesRead, AmongRead, NameRead, SimpleRead, FirstAt, ComparedAs};

use crate::expected::{CONSTANT, NAME, OPEN, OPERAND, is_name, mark_at, sign_at, word_of};
use crate::reader::Reader;
use crate::told::{Read, Refused};
use relation_truth::Truth;
use relation_truth::comparing::{Sign, compared_by};
use relation_truth::equals::{is_number, is_string};
use relation_truth::values::{Constant, value_of, whole};
use relation_words::tokens::{Kind, Token, token_at};

impl<'a> Reader<'a> {
    fn value(&self, x: Token) -> Option<Constant<'a>>
        requires looks { Looks self.now }
        requires operand_in { OperandIn self.now.text.now x }
        ensures { ValueIs self.now.properties.now (operand_of self.now.text.now x) result }
    {
        value_of(self.text, self.properties, self.slots, x)
    }

    // Whether a comparison of two operands holds.
    fn comparison_of(&self, x: Token, sign: Sign, y: Token) -> Truth
        requires looks { Looks self.now }
        requires operand_in { OperandIn self.now.text.now x }
        requires operand_in_2 { OperandIn self.now.text.now y }
        ensures { ComparedAs (held_in self.now.properties.now) (operand_of self.now.text.now x) sign (operand_of self.now.text.now y) result }
    {
        let raised = is_name(x.kind) | is_name(y.kind);
        compared_by(raised, sign, self.value(x), self.value(y))
    }

    // Whether a property's value is the constant that was heard.
    fn equal_to(&self, value: Option<Constant>, x: Token) -> Truth
        requires operand_in { OperandIn self.now.text.now x }
        requires no_name { NoName x }
        ensures { EqualTo (value_in value.entry) (held_in self.now.properties.now) self.now.text.now x result }
    {
        match x.kind {
            Kind::Quoted => is_string(value, &self.text[x.from + 1..x.to - 1]),
            Kind::Figure { below, size } => is_number(value, whole(below, size)),
            Kind::Word(_) => is_number(value, 0),
            Kind::Name => unreachable!(),
        }
    }

    // The constants behind the parenthesis of IN, up to the one that closes it.
    fn values(&self, at: usize, value: Option<Constant>) -> Result<Read, Refused>
        requires { at ≤ length self.now.text.now }
        ensures { ValuesRead (value_in value.entry) self.now.text.now at result }
    {
        let mut from = at;
        let mut truth = Truth::False;
        loop {
            let one = token_at(self.text, from, CONSTANT)?;
            truth = truth.or(self.equal_to(value, one));
            let mark = mark_at(self.text, one.to)?;
            if mark.closes {
                return Ok(Read { to: mark.to, truth });
            }
            from = mark.to;
        }
    }

    // Behind IN: its parenthesis and the constants.
    fn among(&self, at: usize, x: Token) -> Result<Read, Refused>
        requires looks { Looks self.now }
        requires at_in_bounds { at ≤ length self.now.text.now }
        requires operand_in { OperandIn self.now.text.now x }
        ensures { AmongRead (operand_value (held_in self.now.properties.now) (operand_of self.now.text.now x)) self.now.text.now at result }
    {
        let open = token_at(self.text, at, OPEN)?;
        self.values(open.to, self.value(x))
    }

    // Behind SPECIFIED: a name.
    fn specified(&self, at: usize) -> Result<Read, Refused>
        requires looks { Looks self.now }
        requires at_in_bounds { at ≤ length self.now.text.now }
        ensures { NameRead (held_in self.now.properties.now) self.now.text.now at result }
    {
        let name = token_at(self.text, at, NAME)?;
        let value = self.value(name);
        Ok(Read {
            to: name.to,
            truth: Truth::from(value.is_some()),
        })
    }

    // A comparison or IN, whose first operand was heard.
    fn comparison(&self, at: usize, first: Token) -> Result<Read, Refused>
        requires looks { Looks self.now }
        requires operand_at { OperandAt self.now.text.now at first }
        ensures { SimpleRead (held_in self.now.properties.now) self.now.text.now at result }
    {
        let sign = sign_at(self.text, first.to, is_name(first.kind))?;
        let Some(said) = Sign::numbered(word_of(sign.kind)) else {
            return self.among(sign.to, first);
        };
        let other = token_at(self.text, sign.to, OPERAND)?;
        let truth = self.comparison_of(first, said, other);
        Ok(Read {
            to: other.to,
            truth,
        })
    }

    // A condition by its first token, which is neither a parenthesis nor NOT.
    pub fn simple(&self, at: usize, first: Token) -> Result<Read, Refused>
        requires looks { Looks self.now }
        requires first_at { FirstAt self.now.text.now at first }
        ensures { SimpleRead (held_in self.now.properties.now) self.now.text.now at result }
    {
        match first.kind {
            Kind::Word(_) => self.specified(first.to),
            _ => self.comparison(at, first),
        }
    }
}
