// A chosen row by value, read where it stands in the book.
ghost use Rattle.choice.specs.Hands.{RowStands, RowRead};

use book::record_stop;
use rules::PriceRow;

pub fn row_at(b: &[u8], at: usize) -> PriceRow
    requires { RowStands b.now at }
    ensures { RowRead b.now at result }
{
    let end = record_stop(b, at);
    let start = at + 2;
    records::row_of(&b[start..end])
}
