// Scheme records: where the id and the separators stand, and the choices behind them.
ghost use Rattle.records.specs.Asks.{OfKind, SchemeNames};
ghost use Rattle.records.specs.Ensures.{SchemeIs};

use crate::fields::name_stop;
use rules::Part;

// A character 0 is not given: so the definitions `hidden_byte` and `unselected_byte` read the byte of the record.
// As it is: visibility and trim are its bytes too, with which `SchemeIs` and the definition of a scheme have them.
#[derive(Clone, Copy)]
pub struct SchemeParts {
    pub id: Part,
    pub numbersep: Part,
    pub valuesep: Part,
    pub visibility: u8,
    pub hidden: u8,
    pub unselected: u8,
    pub trim: u8,
}

// The scheme whose id ends at `numbers`, and whose separators end at `values` and at `choices`.
fn scheme_from(t: &[u8], numbers: usize, values: usize, choices: usize) -> SchemeParts
    requires { SchemeNames t.now numbers values choices }
    ensures { SchemeIs t.now result }
{
    let id = Part {
        at: 2,
        size: numbers - 2,
    };
    let numbersep = Part {
        at: numbers + 1,
        size: values - (numbers + 1),
    };
    let valuesep = Part {
        at: values + 1,
        size: choices - (values + 1),
    };
    SchemeParts {
        id,
        numbersep,
        valuesep,
        visibility: t[choices],
        hidden: t[choices + 1],
        unselected: t[choices + 2],
        trim: t[choices + 3],
    }
}

// The scheme that the scheme record t is.
pub fn scheme_of(t: &[u8]) -> SchemeParts
    requires { OfKind 5 t.now }
    ensures { SchemeIs t.now result }
{
    let numbers = name_stop(t, 1);
    let values = name_stop(t, numbers);
    let choices = name_stop(t, values);
    scheme_from(t, numbers, values, choices)
}
