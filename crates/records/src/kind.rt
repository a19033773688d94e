// The kinds of record.
ghost use Rattle.records.specs.Kinds.{ByteOf};

// Each by the byte that its records begin with.
#[derive(Clone, Copy)]
pub enum Kind {
    Article = 1,
    Price = 2,
    Rounding = 3,
    Packaging = 4,
    Scheme = 5,
}

impl From<Kind> for u8 {
    ghost from_gives = { ByteOf };

    fn from(kind: Kind) -> u8 {
        kind as u8
    }
}
