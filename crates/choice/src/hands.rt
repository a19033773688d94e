// What a slot keeps while the records go by: whether a row in the asked currency was seen, and the best rows so far.
ghost use Rattle.layout.specs.Ensures.{Number, Says};
ghost use Rattle.choice.specs.Hands.{is_empty, limit_of, better_hand, HandAfter, SeenAfter, TakenIs};
ghost use Rattle.choice.specs.Walk.{going};

// A row in hand: where its record stands in the book, what it is compared by, and the number of its rounding. It says by itself whether it is
// one, and not by an `Option`: of 24 bytes, and not 32, two hundred are kept, and every row that goes by is held against them.
#[derive(Clone, Copy)]
pub struct Hand {
    pub at: usize,
    pub upto: u32,
    pub from: u32,
    pub rounding: u16,
}

impl Hand {
    pub const EMPTY: Hand = Hand {
        at: 0,
        upto: 0,
        from: 0,
        rounding: 0,
    };

    // A book has its length in front, so no record stands at 0.
    pub fn is_empty(self) -> bool
        ensures { Says (is_empty self) result }
    {
        self.at == 0
    }
}

// `met` says whether a row in the asked currency was there; `asked` is the best of those, `other` the best in any.
#[derive(Clone, Copy)]
pub struct Seen {
    pub met: bool,
    pub asked: Hand,
    pub other: Hand,
}

impl Seen {
    pub const NOTHING: Seen = Seen {
        met: false,
        asked: Hand::EMPTY,
        other: Hand::EMPTY,
    };
}

// A row that goes by and counts that day: the slot it is of; whether it is in the asked currency, and reaches the quantity.
#[derive(Clone, Copy)]
pub struct Passing {
    pub slot: usize,
    pub asked: bool,
    pub reaches: bool,
    pub hand: Hand,
}

// No limit is above every limit.
fn limit(upto: u32) -> u64
    ensures { Number (limit_of upto) 4294967297 result }
{
    if upto == 0 { 4294967296 } else { upto as u64 }
}

// By limit, then by first day, then by where they stand in the book: so it does not matter in which order rows go by.
fn better(new: Hand, old: Hand) -> bool
    ensures { Says (better_hand new old) result }
{
    let a = limit(new.upto);
    let b = limit(old.upto);
    let sooner = (new.from == old.from) & (new.at < old.at);
    (a < b) | ((a == b) & ((old.from < new.from) | sooner))
}

// The row in hand once another goes by, if that counts.
fn in_hand(counts: bool, old: Hand, new: Hand) -> Hand
    ensures { HandAfter counts old new result }
{
    if counts && (old.is_empty() || better(new, old)) {
        new
    } else {
        old
    }
}

// What a slot keeps once a record has gone by, as the row that it is to a question, or as none: none leaves it as it is.
pub fn see(s: Seen, p: Option<Passing>) -> Seen
    ensures { SeenAfter s (going p) result }
{
    match p {
        Some(p) => Seen {
            met: s.met | p.asked,
            asked: in_hand(p.asked & p.reaches, s.asked, p.hand),
            other: in_hand(p.reaches, s.other, p.hand),
        },
        None => s,
    }
}

// Once all rows have gone by: of those in the asked currency if there is one, else of any.
pub fn taken(s: Seen) -> Hand
    ensures { TakenIs s result }
{
    if s.met { s.asked } else { s.other }
}
