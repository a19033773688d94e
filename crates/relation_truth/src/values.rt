// The value of an operand: what stands in the text, or what the list of properties has of a name.
ghost use Rattle.std.specs.Prelude.{◌≡◌};
ghost use Rattle.std.specs.Int.{w64};
ghost use Rattle.property_list.specs.Slots.{SlotsOf};
ghost use Rattle.relation_words.specs.Heard.{whole_of};
ghost use Rattle.relation_truth.specs.Values.{NumberFits, OperandIn, ValueIs, operand_of};

use crate::listed::listed_value;
use property_list::positions::position_of;
use property_list::slots::SLOTS;
use relation_words::tokens::{Kind, Token};

// A string, without its quotes, or a number.
#[derive(Clone, Copy)]
pub enum Constant<'a> {
    Text(&'a [u8]),
    Number(i128),
}

// A number by its sign and its size.
pub fn whole(below: bool, size: usize) -> i128
    ensures { result ≡ whole_of below size }
{
    let n = size as i128;
    if below { -n } else { n }
}

// The value of the operand that was heard: a name's is that of the first property of this name; a string's lies between its quotes. A word counts as
// the number 0. Whatever the number is, it fits eight bytes with a sign.
pub fn value_of<'a>(
    text: &'a [u8],
    p: &'a [u8],
    slots: &[usize; SLOTS],
    x: Token,
) -> Option<Constant<'a>>
    requires operand_in { OperandIn text.now x }
    requires slots_of { SlotsOf p.now slots.now }
    ensures value_is { ValueIs p.now (operand_of text.now x) result }
    ensures number_fits { NumberFits w64 result }
{
    match x.kind {
        Kind::Name => {
            let at = position_of(p, slots, &text[x.from..x.to])?;
            listed_value(p, at)
        }
        Kind::Quoted => Some(Constant::Text(&text[x.from + 1..x.to - 1])),
        Kind::Figure { below, size } => Some(Constant::Number(whole(below, size))),
        Kind::Word(_) => Some(Constant::Number(0)),
    }
}

#[cfg(test)]
mod tests {
    use super::*;
    use property_list::properties_ok;
    use property_list::slots::slots_of;

    // The least and the greatest number that a list can have, by their bytes. What is found is cast to eight bytes, as its contract allows.
    #[test]
    fn numbers_of_eight_bytes(rt: HostRuntime) {
        for (first, other, number) in [(128, 0, i64::MIN), (127, 255, i64::MAX)] {
            let p = [
                1, 1, b'A', 2, first, other, other, other, other, other, other, other,
            ];
            assert!(rt; properties_ok(&p));
            let slots = slots_of(&p);
            let name = Token {
                kind: Kind::Name,
                from: 0,
                to: 1,
            };
            let found = match value_of(b"a", &p, &slots, name) {
                Some(Constant::Number(n)) => Some(n as i64),
                _ => None,
            };
            assert_eq!(rt; found, Some(number), "behind {first}");
        }
    }
}
