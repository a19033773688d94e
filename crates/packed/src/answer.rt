// What a caller reads of packaging data: the gross weight, the signs, the units; or the number of a refusal.
ghost use Rattle.std.specs.Prelude.{◌≡◌, ◌<◌};
ghost use Rattle.rules.specs.Refusals.{refused};
ghost use Rattle.rules.specs.Packaging.{shown};
ghost use Rattle.rules.specs.BookLayout.{has};
ghost use Rattle.layout.specs.Ensures.{Says};
ghost use Rattle.packed.specs.Sums.{most_sum, Within};
ghost use Rattle.packed.specs.Answer.{GrossIs, none_below, Answers};

use crate::sums::Sums;
use rules::{PackagingAnswer, Refusal};

// Zeros beside the number of a refusal.
pub fn refusal(number: u8) -> PackagingAnswer
    ensures { result ≡ shown (refused number) }
{
    PackagingAnswer {
        gross: 0,
        values: [0; 8],
        number,
        present: 0,
        units: [0; 9],
    }
}

// Which of the values they are, and which of the presence bits say that they are present.
const TARE: usize = 4;

const NET: usize = 5;

const ITEMS: usize = 6;

fn is_present(s: Sums, i: usize) -> bool
    requires { i < 8 }
    ensures { Says (has i s.present) result }
{
    (s.present >> i) % 2 == 1
}

// Tare, and net for each item; 0 where one of the three is not present.
fn gross_of(s: Sums) -> i64
    requires { Within most_sum s }
    ensures { GrossIs s result }
{
    let values = s.values;
    if is_present(s, TARE) & is_present(s, NET) & is_present(s, ITEMS) {
        return values[TARE] + values[NET] * values[ITEMS];
    }
    0
}

fn none_below_zero(s: Sums) -> bool
    requires { Within most_sum s }
    ensures { Says (none_below s.values) result }
{
    s.values.iter().all(|v| *v >= 0)
}

// Signs are tested here, on what the records come to; on the way a value may be below zero.
pub fn answer_of(s: Sums) -> Result<PackagingAnswer, Refusal>
    requires { Within most_sum s }
    ensures { Answers s result }
{
    let fits = s.agree & none_below_zero(s);
    if !fits {
        return Err(Refusal::UnfitPackaging);
    }
    let values = s.values;
    let units = s.units;
    let length = units.length;
    let volume = units.volume;
    let weight = units.weight;
    Ok(PackagingAnswer {
        gross: gross_of(s),
        values,
        number: 0,
        present: s.present,
        units: [
            length.0, length.1, length.2, volume.0, volume.1, volume.2, weight.0, weight.1,
            weight.2,
        ],
    })
}
