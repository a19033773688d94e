// Article records: where the number and the scheme's id stand, and whether a record is that of an article.
ghost use Rattle.rules.specs.Layout.{whole};
ghost use Rattle.rules.specs.BookLayout.{kinded};
ghost use Rattle.layout.specs.Ensures.{Says};
ghost use Rattle.records.specs.Asks.{Accepted, OfKind};
ghost use Rattle.records.specs.Tests.{article_of};
ghost use Rattle.records.specs.Ensures.{ArticleIs};

use crate::fields::{name_stop, starts_with};
use crate::kind::Kind;
use rules::Part;

#[derive(Clone, Copy)]
pub struct ArticleParts {
    pub number: Part,
    pub scheme: Part,
}

// The article that the article record t is. It ends with its scheme's id.
pub fn article_of(t: &[u8]) -> ArticleParts
    requires { OfKind 1 t.now }
    ensures { ArticleIs t.now result }
{
    let end = name_stop(t, 1);
    let number = Part {
        at: 2,
        size: end - 2,
    };
    let scheme = Part {
        at: end + 1,
        size: t.len() - (end + 1),
    };
    ArticleParts { number, scheme }
}

// Whether t is the record of the article.
pub fn is_article(t: &[u8], number: &[u8]) -> bool
    requires { Accepted t.now }
    ensures { Says (article_of number.now (whole kinded t.now)) result }
{
    starts_with(t, Kind::Article as u8, number)
}
