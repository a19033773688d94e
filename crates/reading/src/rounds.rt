// The records of a price file's rows, and numbers for the names of texts, in order of first appearance. The first round writes every record
// and gives as many numbers as the table holds; the names behind these wait for the next round. The table stands on the stack: 786,422 bytes.
ghost use Rattle.std.specs.Prelude.{◌+◌, ◌%◌, ◌≤◌, ◌||◌, eqb, ltb, length, get_or};
ghost use Rattle.layout.specs.Ensures.{Number, Says};
ghost use Rattle.fields.specs.Field.{CutAt};
ghost use Rattle.reading.specs.Rows.{ToFill};
ghost use Rattle.reading.specs.Rounds.{Behind, NameAt, Ready, Due, Moves, Holds, Rounded, AllNumbered};

use crate::rows::put_waiting;
use fields::field::cut_at;
use fields::lines::brings_nothing;
use price_line::{PriceLine, price_line};
use price_record::put_row;
use text_names::{MOST, Names, hash_of};

// The way of a round through the file: the names that were met in it, where the next record starts, and whether a name found no room.
#[derive(Drop)]
struct Walk {
    names: Names,
    to: usize,
    more: bool,
}

// The lowest four bytes of a number.
fn low_four(n: usize) -> u32
    ensures { Number (n % 4294967296) 4294967296 result }
{
    (n % 4294967296) as u32
}

// Behind the record of the row.
fn behind(out: &[u8], to: usize, row: PriceLine) -> usize
    requires { to + 34 + row.article.count + row.condition.count ≤ length out.now }
    ensures { Behind to row result }
{
    to + 34 + row.article.count + row.condition.count
}

// Where in the file the field of the text's name starts.
fn name_start(file: &[u8], at: usize, row: PriceLine) -> usize
    requires { at + row.start ≤ length file.now }
    ensures { NameAt at row result }
{
    at + row.start
}

// Whether the row's record is to be written: in the first round all are, later those that wait.
fn is_due(out: &[u8], to: usize, row: PriceLine, c: usize) -> bool
    requires { to + 34 + row.article.count + row.condition.count ≤ length out.now }
    ensures { Says (ltb c 1 || eqb (get_or out.now (to + 2) 0) 0) result }
{
    (c < 1) | (out[to + 2] == 0)
}

impl Walk {
    // A row whose text has a name: it gets its number, if the table knows the name or has room for it, or waits.
    fn number_named(
        &mut self,
        file: &[u8],
        at: usize,
        end: usize,
        out: &mut [u8],
        c: usize,
        row: PriceLine,
    )
        requires due { Due file.now c out.old self.old at end row }
        requires le_count { 1 ≤ row.name.count }
        ensures { Moves file.now c out.old self.old at (end + 1) out.new self.new }
    {
        let line = &file[at..end];
        let h = hash_of(line, row.name);
        if let Some(j) = self.names.find(file, line, row.name, h) {
            self.to = put_row(out, self.to, line, row, low_four(c + j));
            return;
        }
        if self.names.is_full() {
            self.to = put_waiting(out, self.to, line, row);
            self.more = true;
            return;
        }
        self.names.enter(name_start(file, at, row), h);
        self.to = put_row(out, self.to, line, row, low_four(c + self.names.count));
    }

    // A text without a name has number 0.
    fn number_row(
        &mut self,
        file: &[u8],
        at: usize,
        end: usize,
        out: &mut [u8],
        c: usize,
        row: PriceLine,
    )
        requires { Due file.now c out.old self.old at end row }
        ensures { Moves file.now c out.old self.old at (end + 1) out.new self.new }
    {
        if row.name.count == 0 {
            self.to = put_row(out, self.to, &file[at..end], row, 0);
            return;
        }
        self.number_named(file, at, end, out, c, row);
    }

    // The line from `at` to `end`, which is a good one.
    fn number_line(&mut self, file: &[u8], at: usize, end: usize, out: &mut [u8], c: usize)
        requires ready { Ready file.now c out.old self.old at }
        requires cut_at { CutAt 10 file.now at end }
        ensures { Moves file.now c out.old self.old at (end + 1) out.new self.new }
    {
        let line = &file[at..end];
        if brings_nothing(line) {
            return;
        }
        let Some(row) = price_line(line) else {
            unreachable!()
        };
        if is_due(out, self.to, row, c) {
            self.number_row(file, at, end, out, c, row);
        } else {
            self.to = behind(out, self.to, row);
        }
    }
}

// Gives the names behind the first c their numbers, as many as the table holds, and says whether any is left. What stands in `out` before the
// first round does not matter.
fn number_round(file: &[u8], out: &mut [u8], c: usize) -> bool
    requires { Holds c file.now out.old }
    ensures { Rounded c file.now out.old out.new result }
{
    let mut walk = Walk {
        names: Names::new(),
        to: 0,
        more: false,
    };
    let mut at = 0;
    while at < file.len() {
        let end = cut_at(file, at, b'\n');
        walk.number_line(file, at, end, out, c);
        at = end + 1;
    }
    walk.more
}

// Round by round, as long as a name is left.
pub fn number_rows(file: &[u8], out: &mut [u8])
    requires { ToFill file.now out.old }
    ensures { AllNumbered file.now out.old out.new }
{
    let mut c = 0;
    while number_round(file, out, c) {
        c += MOST;
    }
}
