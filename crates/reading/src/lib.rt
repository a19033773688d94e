// A price file read: judged first, then its records are written, and the names of texts get their numbers.
#![tactic(auto)]

mod rounds;
mod rows;

ghost use Rattle.file_rules.specs.Calls.{ReadIs};

use crate::rounds::number_rows;
use judging::judge;
use rules::PlacedAnswer;

// The price records of a manufacturer's price file: refusals 13, with the number of the first bad line, and 7. A refused file writes nothing.
pub fn read_prices(file: &[u8], out: &mut [u8]) -> PlacedAnswer
    ensures { ReadIs file.now out.old result out.new }
{
    let answer = judge(file, out.len());
    if answer.number != 0 {
        return answer;
    }
    number_rows(file, out);
    answer
}
