// Where the packaging records stand that a question may use. One walk over the book finds them all.
ghost use Rattle.std.specs.Prelude.{◌≤◌, ◌≡◌, length};
ghost use Rattle.rules.specs.Layout.{whole};
ghost use Rattle.rules.specs.BookLayout.{kinded};
ghost use Rattle.layout.specs.Records.{Between};
ghost use Rattle.records.specs.Asks.{Accepted};
ghost use Rattle.grants.specs.Table.{table_size};
ghost use Rattle.packaging.specs.Spots.{PlaceFor, FoundIs};

use book::record_stop;
use grants::{NOWHERE, place_of};
use records::{Kind, bytes_of, is_article, packaging_of, starts_with};
use rules::{Part, Refusal};

// A spot for each place, the first for the record without condition, and behind them one that nobody reads: `NOWHERE` is the place of a
// condition that is not granted, by the definition `place_of`, so that every record is kept by the same two steps.
pub const SPOTS: usize = NOWHERE + 1;

// Where the packaging records of the article stand in the book, and those of any article, each at the place of its condition.
#[derive(Drop)]
pub struct Found {
    pub own: [Option<Part>; SPOTS],
    pub any: [Option<Part>; SPOTS],
}

// Where the record t is kept if it is a packaging of the article: at the place of its condition among the granted names.
fn place_for(t: &[u8], article: &[u8], table: &[u8], names: usize) -> usize
    requires accepted { Accepted t.now }
    requires table_len { length table.now ≡ table_size }
    requires names_bound { names ≤ 32 }
    ensures { PlaceFor table.now names article.now (whole kinded t.now) result }
{
    if starts_with(t, Kind::Packaging as u8, article) {
        let packing = packaging_of(t);
        return place_of(table, names, bytes_of(t, packing.condition));
    }
    NOWHERE
}

// Each record of the book once. Of records alike the first in the book counts. A book without a record of the article is refused.
pub fn walk(b: &[u8], article: &[u8], table: &[u8], names: usize) -> Result<Found, Refusal>
    requires between { Between b.now 5 }
    requires table_len { length table.now ≡ table_size }
    requires names_bound { names ≤ 32 }
    ensures { FoundIs b.now article.now table.now names result }
{
    let mut own = [None; SPOTS];
    let mut any = [None; SPOTS];
    let mut known = false;
    let mut at = 5;
    while at < b.len() {
        let end = record_stop(b, at);
        let here = Part {
            at: at + 2,
            size: end - (at + 2),
        };
        let t = bytes_of(b, here);
        let i = place_for(t, article, table, names);
        own[i] = own[i].or(Some(here));
        let j = place_for(t, b"*", table, names);
        any[j] = any[j].or(Some(here));
        known |= is_article(t, article);
        at = end;
    }
    if !known {
        return Err(Refusal::NoArticle);
    }
    Ok(Found { own, any })
}
