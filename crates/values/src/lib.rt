// The values of a question's properties, as a scheme writes them.
#![tactic(auto)]

ghost use Rattle.std.specs.Prelude.{◌+◌, ◌*◌, ◌≤◌, ◌&&◌, eqb, length};
ghost use Rattle.rules.specs.Question.{state_number};
ghost use Rattle.rules.specs.FinalNumber.{padded};
ghost use Rattle.layout.specs.Ensures.{Says, PutsTo};
ghost use Rattle.records.specs.Ensures.{bytes_in, scheme_in, SchemeIs};
ghost use Rattle.properties.specs.Properties.{property_in, properties_at, PropertiesStand, PropertyFits};
ghost use Rattle.values.specs.Values.{before, most, brought, brought_all, value_bytes};

use kinds::given_or;
use layout::strings::{put_bytes, put_run};
use properties::{PropertyParts, property_of};
use records::{SchemeParts, bytes_of};
use rules::{Part, State};

// A part of s, put at a place.
pub fn put_part(out: &mut [u8], at: usize, s: &[u8], part: Part) -> usize
    requires size_in_bounds { part.at + part.size ≤ length s.now }
    requires size_in_bounds_2 { at + part.size ≤ length out.old }
    ensures { PutsTo out.old at (bytes_in s.now part) out.new result }
{
    put_bytes(out, at, bytes_of(s, part))
}

// What stands in front of a value: of the first one the number separator, or a blank where that is empty, and of the others the value separator.
fn put_separator(out: &mut [u8], at: usize, first: bool, t: &[u8], scheme: SchemeParts) -> usize
    requires scheme_is { SchemeIs t.now scheme }
    requires at_in_bounds { at + 8 ≤ length out.old }
    ensures { PutsTo out.old at (before (scheme_in t.now scheme) first) out.new result }
{
    if !first {
        return put_part(out, at, t, scheme.valuesep);
    }
    if scheme.numbersep.size == 0 {
        return put_run(out, at, b' ', 1);
    }
    put_part(out, at, t, scheme.numbersep)
}

// A value, filled with blanks to its width unless it is trimmed.
fn put_padded(out: &mut [u8], at: usize, trim: u8, width: usize, value: &[u8]) -> usize
    requires value_len_bound { length value.now ≤ width }
    requires width_in_bounds { at + width ≤ length out.old }
    ensures { PutsTo out.old at (padded trim width value.now) out.new result }
{
    let end = put_bytes(out, at, value);
    if trim == 0 {
        return put_run(out, end, b' ', width - value.len());
    }
    end
}

// What the property shows, where it shows something: its value, or a run of the character of its state.
fn put_value(
    out: &mut [u8],
    at: usize,
    q: &[u8],
    property: PropertyParts,
    scheme: SchemeParts,
) -> usize
    requires property_fits { PropertyFits q.now property }
    requires at_in_bounds { at + 30 ≤ length out.old }
    ensures { PutsTo out.old at (value_bytes scheme (property_in q.now property)) out.new result }
{
    let width = property.width;
    match property.state {
        State::Valued => put_padded(out, at, scheme.trim, width, bytes_of(q, property.value)),
        State::Hidden => put_run(out, at, given_or(b'-', scheme.hidden), width),
        State::Unselected => put_run(out, at, given_or(b'X', scheme.unselected), width),
    }
}

// Whether a property in this state is left out: a hidden one is, under visibility 0.
fn left_out(state: State, visibility: u8) -> bool
    ensures { Says (eqb (state_number state) 1 && eqb visibility 0) result }
{
    (state == State::Hidden) & (visibility == 0)
}

// The property with its separator. One that is left out has none either.
fn put_next(
    out: &mut [u8],
    at: usize,
    first: bool,
    q: &[u8],
    property: PropertyParts,
    t: &[u8],
    scheme: SchemeParts,
) -> usize
    requires property_fits { PropertyFits q.now property }
    requires scheme_is { SchemeIs t.now scheme }
    requires most_in_bounds { at + most ≤ length out.old }
    ensures { PutsTo out.old at (brought (scheme_in t.now scheme) first (property_in q.now property)) out.new result }
{
    if left_out(property.state, scheme.visibility) {
        return at;
    }
    let from = put_separator(out, at, first, t, scheme);
    put_value(out, from, q, property, scheme)
}

// The properties from `from` on, so many, behind the base number, which ends at `base`. Every value has bytes in front of it,
// so as long as nothing has been written behind the base number, the next value is the first.
pub fn put_values(
    out: &mut [u8],
    base: usize,
    q: &[u8],
    from: usize,
    count: usize,
    t: &[u8],
    scheme: SchemeParts,
) -> usize
    requires properties_stand { PropertiesStand q.now from count }
    requires scheme_is { SchemeIs t.now scheme }
    requires count_in_bounds { base + most * count ≤ length out.old }
    ensures { PutsTo out.old base (brought_all (scheme_in t.now scheme) (properties_at q.now from count)) out.new result }
{
    let mut at = base;
    let mut p = from;
    for _ in 0..count {
        let property = property_of(q, p);
        at = put_next(out, at, at == base, q, property, t, scheme);
        let value = property.value;
        p = value.at + value.size;
    }
    at
}
