// A record whose text waits for its number: as long as it does, its kind is 0.
ghost use Rattle.layout.specs.Ensures.{PutsTo};
ghost use Rattle.price_line.specs.Line.{row_on};
ghost use Rattle.price_record.specs.Put.{ToPut};
ghost use Rattle.reading.specs.Rows.{waiting};

use price_line::PriceLine;
use price_record::put_row;

pub fn put_waiting(out: &mut [u8], to: usize, line: &[u8], row: PriceLine) -> usize
    requires { ToPut line.now row out.old to }
    ensures { PutsTo out.old to (waiting (row_on line.now row).row) out.new result }
{
    let end = put_row(out, to, line, row, 0);
    out[to + 2] = 0;
    end
}
