// Two values compared by a sign.
ghost use Rattle.std.specs.Prelude.{MatchOption};
ghost use Rattle.layout.specs.Ensures.{Says};
ghost use Rattle.relation_rules.specs.Truth.{compared, holds};
ghost use Rattle.relation_truth.specs.Told.{TruthIs, order_in, sign_told};
ghost use Rattle.relation_truth.specs.Values.{NoSign, SignIs, sign_no, value_in};

use crate::Truth;
use crate::orders::text_order;
use crate::values::Constant;
use std::cmp::Ordering;

#[derive(Clone, Copy, PartialEq, Eq)]
pub enum Sign {
    Below,
    AtMost,
    Equal,
    Unequal,
    AtLeast,
    Above,
}

#[tactic(auto, unfolding(relation_rules::specs::Truth::holds))]
impl Sign {
    // By its number among the spellings of all signs, from 1: each has two or three of them.
    pub fn numbered(number: usize) -> Option<Sign>
        ensures { MatchOption result (NoSign number) (SignIs number) }
    {
        match number {
            1 | 2 => Some(Sign::Below),
            3 | 4 => Some(Sign::AtMost),
            5 | 6 => Some(Sign::Equal),
            7 | 8 => Some(Sign::Unequal),
            9..=11 => Some(Sign::AtLeast),
            12 | 13 => Some(Sign::Above),
            _ => None,
        }
    }

    // Whether two values in this order are as the sign says.
    pub fn holds(self, order: Ordering) -> bool
        ensures { Says (holds (sign_told self) (order_in order)) result }
    {
        match self {
            Sign::Below => order.is_lt(),
            Sign::AtMost => order.is_le(),
            Sign::Equal => order.is_eq(),
            Sign::Unequal => order.is_ne(),
            Sign::AtLeast => order.is_ge(),
            Sign::Above => order.is_gt(),
        }
    }
}

// The truth of a comparison: undefined where a value is missing, and between a string and a number.
pub fn compared_by(raised: bool, sign: Sign, a: Option<Constant>, b: Option<Constant>) -> Truth
    ensures { TruthIs (compared raised (sign_told sign) (value_in a.entry) (value_in b.entry)) result }
{
    let (Some(a), Some(b)) = (a, b) else {
        return Truth::Undefined;
    };
    match (a, b) {
        (Constant::Text(a), Constant::Text(b)) => {
            Truth::from(sign.holds(text_order(a, b, raised)))
        }
        (Constant::Number(a), Constant::Number(b)) => Truth::from(sign.holds(a.cmp(&b))),
        _ => Truth::Undefined,
    }
}

// By the sign's number; one that is no sign counts as the first.
pub fn compared_as(raised: bool, sign: usize, a: Option<Constant>, b: Option<Constant>) -> Truth
    ensures { TruthIs (compared raised (sign_no sign) (value_in a.entry) (value_in b.entry)) result }
{
    let said = Sign::numbered(sign).unwrap_or(Sign::Below);
    compared_by(raised, said, a, b)
}
