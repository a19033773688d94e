// Truth of conditions: joined by OR and AND, turned by NOT. And what is compared in them: the values of operands, and their order.
#![tactic(auto)]

pub mod comparing;
pub mod equals;
mod listed;
mod orders;
pub mod values;

ghost use Rattle.std.specs.Prelude.{◌≡◌};
ghost use Rattle.relation_rules.specs.Truth.{either, together, opposite, plainly};
ghost use Rattle.relation_truth.specs.Told.{TruthOf, truth_in, TruthIs};

#[derive(Clone, Copy, PartialEq, Eq)]
pub enum Truth {
    Undefined,
    True,
    False,
}

#[tactic(auto, unfolding(relation_rules::specs::Truth::either, relation_rules::specs::Truth::together, relation_rules::specs::Truth::opposite))]
impl Truth {
    // One that is true decides.
    pub fn or(self, other: Truth) -> Truth
        ensures { TruthIs (either (truth_in self) (truth_in other)) result }
    {
        match (self, other) {
            (Truth::True, _) | (_, Truth::True) => Truth::True,
            (Truth::False, Truth::False) => Truth::False,
            _ => Truth::Undefined,
        }
    }

    // One that is false decides.
    pub fn and(self, other: Truth) -> Truth
        ensures { TruthIs (together (truth_in self) (truth_in other)) result }
    {
        match (self, other) {
            (Truth::False, _) | (_, Truth::False) => Truth::False,
            (Truth::True, Truth::True) => Truth::True,
            _ => Truth::Undefined,
        }
    }

    pub fn not(self) -> Truth
        ensures { TruthIs (opposite (truth_in self)) result }
    {
        match self {
            Truth::True => Truth::False,
            Truth::False => Truth::True,
            Truth::Undefined => Truth::Undefined,
        }
    }

    // Plainly true: neither false nor undefined.
    pub fn is_true(self) -> bool
        ensures { result ≡ plainly (truth_in self) }
    {
        matches!(self, Truth::True)
    }
}

impl From<bool> for Truth {
    ghost from_gives = { TruthOf };

    fn from(so: bool) -> Truth {
        if so { Truth::True } else { Truth::False }
    }
}
