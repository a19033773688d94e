// The words that definitions and code share: what stands on a price row, and what a caller reads of an answer.
// Nothing here computes but the number of a refusal; what is right is said in specs/, and the promises about it are proved in proofs/.
#![tactic(auto)]

mod refused;

ghost use Rattle.rules.specs.Reasons.{NumberOf};

// ---- three sorts of whole number (the third, `Day`, has its own crate)

// Hundredths of a currency's unit.
#[repr(C)]
#[derive(Clone, Copy, PartialEq, Eq)]
pub struct Cents(pub i64);

// Hundredths of a percent.
#[derive(Clone, Copy, PartialEq, Eq)]
pub struct Hundredths(pub i64);

// ---- what a book's records hold

// A price row's value: an amount, or a share of one.
#[derive(Clone, Copy)]
pub enum Value {
    Fixed(Cents),
    Percent(Hundredths),
}

// The levels of a price, in the order of its lines.
#[derive(Clone, Copy, PartialEq, Eq)]
pub enum Level {
    Base,
    Surcharge,
    Discount,
}

// What a percentage is of: the sum of the base lines, or the running total before it.
#[derive(Clone, Copy, PartialEq, Eq)]
pub enum Rule {
    OfBase,
    OfTotal,
}

// Three capitals; or three zeros, where there is none.
// As it is: no `Option`, since an outcome that is handed to C has it, and the definition `no_currency` is three zeros.
#[repr(C)]
#[derive(Clone, Copy, PartialEq, Eq)]
pub struct Currency(pub u8, pub u8, pub u8);

// Some bytes of a record: where they start in it, and how many they are.
#[derive(Clone, Copy, PartialEq, Eq)]
pub struct Part {
    pub at: usize,
    pub size: usize,
}

// A price record, read by value. Its two names stay in the book. Its dates are numbers, since a row may have one that is no day.
// As it is: the sort is the byte of the record, since what `is_row` and `survey` promise of a sort is so of every byte.
#[derive(Clone, Copy)]
pub struct PriceRow {
    pub article: Part,
    pub condition: Part,
    pub sort: u8,
    pub level: Level,
    pub rule: Rule,
    pub text: u32,
    pub value: Value,
    pub currency: Currency,
    pub from: u32,
    pub to: u32,
    pub upto: u32,
    pub rounding: u16,
}

// To which multiple of the step an amount goes.
#[derive(Clone, Copy, PartialEq, Eq)]
pub enum Way {
    Down,
    Up,
    Commercial,
}

// A rounding record.
#[derive(Clone, Copy)]
pub struct Rounding {
    pub number: u16,
    pub way: Way,
    pub step: u32,
    pub before: Cents,
    pub after: Cents,
}

// ---- what a question's properties are

// A property has a value, or it is hidden, or nobody has chosen its value yet.
#[derive(Clone, Copy, PartialEq, Eq)]
pub enum State {
    Valued,
    Hidden,
    Unselected,
}

// ---- on the way to a price

// An exact amount: top / bottom cents.
#[derive(Clone, Copy)]
pub struct Fraction {
    pub top: i64,
    pub bottom: u64,
}

// A total is in range from the first of these to the second, both among them, in cents.
pub const LEAST_TOTAL: i64 = -1_000_000_000;

pub const MOST_TOTAL: i64 = 1_000_000_000;

// What lines come to, if the total was in range after each of them; or that it was not.
// As it is: no `Option`, since the definition `total_of` and the theorems on it have this type.
#[derive(Clone, Copy)]
pub enum Total {
    InRange(Cents),
    OutOfRange,
}

// What a day comes to: 0, the currency and what one piece costs; or the number of the refusal, with zeros.
// As it is: no `Result`, since it is the end of the record of a stretch, which is handed to C.
#[repr(C)]
#[derive(Clone, Copy, PartialEq, Eq)]
pub struct Outcome {
    pub unit: Cents,
    pub refusal: u8,
    pub currency: Currency,
}

// Factors are in thousandths. A line without a condition, or of a question that gives no factors, has the first; none is over the second.
pub const PLAIN_FACTOR: u16 = 1_000;

pub const MOST_FACTOR: u16 = 10_000;

// The version of a question that gives them.
pub const WITH_FACTORS: u8 = 2;

// The bytes of a line.
pub const LINE_SIZE: usize = 16;

// ---- what a caller reads (as it is: laid out for C, so a refusal is its number here, and each call has an answer of its own name)

// A price: for one piece and for all, how many lines were written, which granted names brought none (a bit for each place, the lowest
// for place 1) and how many those are, the number of the refusal or 0, and the currency.
#[repr(C)]
#[derive(Clone, Copy)]
pub struct PriceAnswer {
    pub unit: i64,
    pub total: i64,
    pub lines: u64,
    pub unused: u32,
    pub unused_count: u8,
    pub number: u8,
    pub currency: [u8; 3],
}

// A calendar: how much of it was written, in bytes or in records of a lent list, and the number of the refusal or 0.
#[repr(C)]
#[derive(Clone, Copy)]
pub struct CalendarAnswer {
    pub length: u64,
    pub number: u8,
}

// How many bytes a call wrote.
#[repr(C)]
#[derive(Clone, Copy)]
pub struct Written {
    pub length: u64,
    pub number: u8,
}

// How many bytes a call wrote, and the place beside a refusal that has one: of a line or of a byte, from 1.
#[repr(C)]
#[derive(Clone, Copy)]
pub struct PlacedAnswer {
    pub length: u64,
    pub place: u64,
    pub number: u8,
}

// Packaging data: the gross weight, the eight values, which of them are present (a bit for each), and the units of length, volume and weight.
#[repr(C)]
#[derive(Clone, Copy)]
pub struct PackagingAnswer {
    pub gross: i64,
    pub values: [i64; 8],
    pub number: u8,
    pub present: u8,
    pub units: [u8; 9],
}

// Which book has the text (1 the asked one, 2 the fallback, 0 none), and where in it.
#[repr(C)]
#[derive(Clone, Copy)]
pub struct TextAnswer {
    pub place: u64,
    pub length: u64,
    pub number: u8,
    pub book: u8,
}

// ---- why a call is refused

// The fifteen reasons. A caller reads a number for each; 10 is no reason's.
#[derive(Clone, Copy, Debug, PartialEq, Eq)]
pub enum Refusal {
    BrokenBook,
    BrokenQuestion,
    NoArticle,
    NoBaseLine,
    MixedCurrencies,
    TotalOutOfRange,
    ShortOutput,
    NoPackaging,
    BadPeriod,
    UnfitPackaging,
    NoText,
    BadRow,
    BadRelation,
    DeepRelation,
    UnfitName,
}

impl From<Refusal> for u8 {
    ghost from_gives = { NumberOf };

    fn from(refusal: Refusal) -> u8 {
        match refusal {
            Refusal::BrokenBook => 1,
            Refusal::BrokenQuestion => 2,
            Refusal::NoArticle => 3,
            Refusal::NoBaseLine => 4,
            Refusal::MixedCurrencies => 5,
            Refusal::TotalOutOfRange => 6,
            Refusal::ShortOutput => 7,
            Refusal::NoPackaging => 8,
            Refusal::BadPeriod => 9,
            Refusal::UnfitPackaging => 11,
            Refusal::NoText => 12,
            Refusal::BadRow => 13,
            Refusal::BadRelation => 14,
            Refusal::DeepRelation => 15,
            Refusal::UnfitName => 16,
        }
    }
}
