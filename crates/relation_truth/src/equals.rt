// Whether a value is a constant of a list behind IN: undefined where it is missing, or where one is a string and the other a number.
ghost use Rattle.std.specs.Prelude.{true};
ghost use Rattle.std.proofs.Math.Option.{some};
ghost use Rattle.relation_rules.specs.Grammar.{Text, Number, Equal};
ghost use Rattle.relation_rules.specs.Truth.{compared};
ghost use Rattle.relation_truth.specs.Told.{TruthIs};
ghost use Rattle.relation_truth.specs.Values.{value_in};

use crate::Truth;
use crate::comparing::Sign;
use crate::values::Constant;
use property_list::names::same_raised;

// A string; small letters count as capitals.
pub fn is_string(value: Option<Constant>, string: &[u8]) -> Truth
    ensures { TruthIs (compared true Equal (value_in value.entry) (some (Text string.now))) result }
{
    match value {
        Some(Constant::Text(held)) => Truth::from(same_raised(held, string)),
        _ => Truth::Undefined,
    }
}

pub fn is_number(value: Option<Constant>, number: i128) -> Truth
    ensures { TruthIs (compared true Equal (value_in value.entry) (some (Number number))) result }
{
    match value {
        Some(Constant::Number(held)) => Truth::from(Sign::Equal.holds(held.cmp(&number))),
        Some(Constant::Text(_)) => Truth::Undefined,
        None => Truth::Undefined,
    }
}
