// Whether a price record is one of the article, by what it starts with: its kind, the length of the article's number, the number. Its last two
// bytes, in which the numbers of a catalogue mostly differ, are made a number once, and looked at before all are.
ghost use Rattle.rules.specs.Layout.{whole};
ghost use Rattle.rules.specs.BookLayout.{kinded};
ghost use Rattle.layout.specs.Ensures.{Says};
ghost use Rattle.records.specs.Asks.{OfKind};
ghost use Rattle.records.specs.Tests.{is_row};
ghost use Rattle.survey.specs.Own.{EndingIs};

use layout::numbers::{two_at, wide};
use records::is_row;

const KIND: usize = 2;

const BYTE: usize = 256;

// The last two bytes of what a price record of the article starts with. A number of less than two bytes has its length in front, and the kind.
pub fn ending_of(article: &[u8]) -> usize
    ensures { EndingIs article.now result }
{
    let n = article.len();
    if n < 1 {
        return KIND * BYTE;
    }
    if n < 2 {
        return BYTE + wide(article[0]);
    }
    two_at(article, n - 2)
}

// Whether the price t is a row of the article and sort. Of most rows the length is another, or the ending.
pub fn is_own(t: &[u8], article: &[u8], ending: usize, sort: u8) -> bool
    requires of_kind { OfKind 2 t.now }
    requires ending_is { EndingIs article.now ending }
    ensures { Says (is_row article.now sort (whole kinded t.now)) result }
{
    let n = article.len();
    if wide(t[1]) != n {
        return false;
    }
    if two_at(t, n) != ending {
        return false;
    }
    is_row(t, article, sort)
}
