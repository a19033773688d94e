// Which bytes are a price book: a head, and records one behind the other; and where each record of an accepted one ends.
#![tactic(auto)]

ghost use Rattle.std.specs.Prelude.{◌≡◌, ◌≤◌, length};
ghost use Rattle.rules.specs.Lists.{is_some};
ghost use Rattle.rules.specs.BookLayout.{records};
ghost use Rattle.layout.specs.Records.{RecordHere, StopIs};
ghost use Rattle.layout.specs.Ends.{EndOrNone};
ghost use Rattle.book.specs.Ensures.{RecordEnd};

use kinds::record_ok;
use layout::heads::book_head_ok;
use layout::numbers::two_at;

// Where the record at `at` ends, if one stands there.
pub fn record_end(b: &[u8], at: usize) -> Option<usize>
    requires { at ≤ length b.now }
    ensures { EndOrNone (RecordEnd b.now at) result }
{
    if b.len() - at < 2 {
        return None;
    }
    let from = at + 2;
    let n = two_at(b, at);
    if b.len() - from < n {
        return None;
    }
    let end = from + n;
    if record_ok(&b[from..end], &b[from..]) {
        Some(end)
    } else {
        None
    }
}

// Whether b is a price book.
pub fn book_ok(b: &[u8]) -> bool
    ensures { result ≡ is_some (records b.now) }
{
    if !book_head_ok(b) {
        return false;
    }
    let mut at = 5;
    while at < b.len() {
        let Some(end) = record_end(b, at) else {
            return false;
        };
        at = end;
    }
    true
}

// The end of the record at `at` of an accepted book.
pub fn record_stop(b: &[u8], at: usize) -> usize
    requires { RecordHere b.now at }
    ensures { StopIs b.now at result }
{
    at + 2 + two_at(b, at)
}
