// What a field of the price file means, by the column that it stands in. A field's own bytes are read: where quotes in them stand twice, it is bad.
ghost use Rattle.std.specs.Prelude.{◌≡◌, false, eqb, MatchOption};
ghost use Rattle.rules.specs.Lists.{all, any};
ghost use Rattle.rules.specs.Bytes.{name_byte};
ghost use Rattle.file_rules.specs.Decimals.{date_in, quantity_in, value_in};
ghost use Rattle.file_rules.specs.PriceLine.{is_currency, letter_in};
ghost use Rattle.layout.specs.Ensures.{Says};
ghost use Rattle.fields.specs.Given.{Agrees, GivesNone};
ghost use Rattle.fields.specs.Field.{text_of, TextIs};
ghost use Rattle.figures.specs.Figures.{near, AmountIs, CapitalsAre};

use fields::field::Field;
use figures::{Amount, amount_in, currency_in, date_in, one_of, quantity_in};
use layout::names::all_name_bytes;
use rules::Currency;

// Whether all bytes of a name are printable. A quote is, so it does not matter that some stand twice.
pub fn named_in(line: &[u8], f: Field) -> bool
    requires { TextIs line.now f }
    ensures { Says (all name_byte (text_of line.now f)) result }
{
    all_name_bytes(&line[f.from..f.to])
}

// One letter, of a few that are no quotes.
pub fn letter_in(line: &[u8], f: Field, letters: &[u8]) -> Option<u8>
    requires text_is { TextIs line.now f }
    requires no_quote { any (eqb 34) letters.now ≡ false }
    ensures { Agrees (letter_in letters.now (text_of line.now f)) result }
{
    one_of(&line[f.from..f.to], letters)
}

pub fn value_in(line: &[u8], f: Field) -> Option<Amount>
    requires { TextIs line.now f }
    ensures { MatchOption result (GivesNone (near (value_in (text_of line.now f)))) (AmountIs (text_of line.now f)) }
{
    amount_in(&line[f.from..f.to])
}

pub fn capitals_in(line: &[u8], f: Field) -> Option<Currency>
    requires { TextIs line.now f }
    ensures { MatchOption result (Says (is_currency (text_of line.now f)) false) (CapitalsAre (text_of line.now f)) }
{
    currency_in(&line[f.from..f.to])
}

pub fn day_in(line: &[u8], f: Field) -> Option<u32>
    requires { TextIs line.now f }
    ensures { Agrees (date_in (text_of line.now f)) result }
{
    date_in(&line[f.from..f.to])
}

pub fn number_in(line: &[u8], f: Field) -> Option<u32>
    requires { TextIs line.now f }
    ensures { Agrees (quantity_in (text_of line.now f)) result }
{
    quantity_in(&line[f.from..f.to])
}
