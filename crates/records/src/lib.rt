// Records of an accepted book, read by value. A record is handed over as the slice of its kind byte and its body.
// Names stay in the book: a record that was read says where they stand in its slice.
#![tactic(auto)]

mod articles;
mod fields;
mod kind;
mod packagings;
mod prices;
mod roundings;
mod schemes;

pub use articles::{ArticleParts, article_of, is_article};
pub use fields::{bytes_of, starts_with};
pub use kind::Kind;
pub use packagings::{Packing, packaging_of};
pub use prices::{is_row, row_of};
pub use roundings::{is_rounding, rounding_number, rounding_of};
pub use schemes::{SchemeParts, scheme_of};
