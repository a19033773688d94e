// The first record of a kind that starts with a given name: the article of a number, the scheme of an id.
ghost use Rattle.std.specs.Prelude.{true, not, ◌≡◌, T, eqb};
ghost use Rattle.rules.specs.Lists.{is_some};
ghost use Rattle.rules.specs.BookLayout.{records};
ghost use Rattle.lookup.specs.Ensures.{FirstNamed};

use rules::Part;

// The part of the book that it is, from its kind byte on. Roundings have no name.
// As it is: a byte and no `Kind`, since what is promised here is so of every byte.
pub fn first_named(b: &[u8], kind: u8, name: &[u8]) -> Option<Part>
    requires b_value { is_some (records b.now) ≡ true }
    requires t { T (not (eqb kind 3)) }
    ensures { FirstNamed b.now kind name.now result }
{
    let mut at = 5;
    while at < b.len() {
        let end = book::record_stop(b, at);
        let body = at + 2;
        if records::starts_with(&b[body..end], kind, name) {
            return Some(Part {
                at: body,
                size: end - body,
            });
        }
        at = end;
    }
    None
}
