// A price record as a line of a price file: whether a line can hold it, how long that is, and its bytes.
// A record is handed over as the slice of its kind byte and its body; one of another kind brings no line.
#![tactic(auto)]

ghost use Rattle.std.specs.Prelude.{length};
ghost use Rattle.layout.specs.Ensures.{PutsTo};
ghost use Rattle.records.specs.Asks.{Accepted};
ghost use Rattle.decimals.specs.Texts.{RoomFor};
ghost use Rattle.price_text.specs.Line.{line_of, Priced};
ghost use Rattle.price_text.specs.Size.{SizeOf};

use price_terms::{Terms, fits_line, put_kinds, put_tail, terms_of, terms_size};
use quotes::{name_size, put_name};

// A record that no line can hold, and how many bytes its line would take.
#[derive(Clone, Copy, PartialEq, Eq)]
pub struct Unfit {
    pub size: usize,
}

// A price record: its bytes, and where in them its article ends, and its condition.
#[derive(Clone, Copy)]
struct Named<'a> {
    bytes: &'a [u8],
    article: usize,
    condition: usize,
    ghost priced: { Priced bytes.now article condition },
}

impl<'a> Named<'a> {
    ghost use Rattle.layout.specs.Ensures.{Number};
    ghost use Rattle.price_terms.specs.Terms.{TermsAre};
    ghost use Rattle.price_text.specs.Line.{names_text, term_text};
    ghost use Rattle.price_text.specs.Named.{NamedIs};

    // None where the record is of another kind.
    fn of(t: &'a [u8]) -> Option<Named<'a>>
        requires { Accepted t.now }
        ensures { NamedIs t.now result }
    {
        if t[0] != 2 {
            return None;
        }
        let article = 2 + t[1] as usize;
        let condition = article + 1 + t[article] as usize;
        Some(Named {
            bytes: t,
            article,
            condition,
        })
    }

    fn terms(&self) -> Terms
        ensures { TermsAre self.now.bytes.now self.now.condition result }
    {
        terms_of(self.bytes, self.condition)
    }

    // ---- its size

    fn names_size(&self) -> usize
        ensures { Number (length (names_text self.now.bytes.now self.now.article self.now.condition)) 1030 result }
    {
        let article = name_size(&self.bytes[2..self.article], true);
        article + name_size(&self.bytes[self.article + 1..self.condition], false)
    }

    // How many bytes its line takes, with the line's end, if a line can hold it.
    fn size(&self) -> Result<usize, Unfit>
        ensures { SizeOf self.now.bytes.now result }
    {
        let terms = self.terms();
        let size = self.names_size() + terms_size(terms);
        if fits_line(terms) {
            Ok(size)
        } else {
            Err(Unfit { size })
        }
    }

    // ---- its bytes

    fn put_names(&self, out: &mut [u8], at: usize) -> usize
        requires { RoomFor out.old at (names_text self.now.bytes.now self.now.article self.now.condition) }
        ensures { PutsTo out.old at (names_text self.now.bytes.now self.now.article self.now.condition) out.new result }
    {
        let next = put_name(out, at, &self.bytes[2..self.article], true);
        put_name(
            out,
            next,
            &self.bytes[self.article + 1..self.condition],
            false,
        )
    }

    fn put_terms(&self, out: &mut [u8], at: usize, terms: Terms) -> usize
        requires { RoomFor out.old at (term_text self.now.bytes.now self.now.condition terms) }
        ensures { PutsTo out.old at (term_text self.now.bytes.now self.now.condition terms) out.new result }
    {
        let tail = put_kinds(out, at, self.bytes, self.condition, terms.text);
        put_tail(out, tail, self.bytes, self.condition, terms)
    }

    fn put(&self, out: &mut [u8], at: usize) -> usize
        requires { RoomFor out.old at (line_of self.now.bytes.now) }
        ensures { PutsTo out.old at (line_of self.now.bytes.now) out.new result }
    {
        let terms = self.terms();
        let behind = self.put_names(out, at);
        self.put_terms(out, behind, terms)
    }
}

// How many bytes the record's line takes, with its end, if a line can hold it; 0 where it brings none.
pub fn line_size(t: &[u8]) -> Result<usize, Unfit>
    requires { Accepted t.now }
    ensures { SizeOf t.now result }
{
    let Some(record) = Named::of(t) else {
        return Ok(0);
    };
    record.size()
}

pub fn put_line(out: &mut [u8], at: usize, t: &[u8]) -> usize
    requires accepted { Accepted t.now }
    requires room_for { RoomFor out.old at (line_of t.now) }
    ensures { PutsTo out.old at (line_of t.now) out.new result }
{
    let Some(record) = Named::of(t) else {
        return at;
    };
    record.put(out, at)
}
