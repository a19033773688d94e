// The program's work: from the bytes of its input to those of its output.
ghost use Rattle.std.specs.Prelude.{◌+◌, ◌≤◌, length, ◌++◌};
ghost use Rattle.rules.specs.Letters.{text};
ghost use Rattle.rules.specs.Program.{decimal, asked};
ghost use Rattle.calendar.specs.Listing.{ListingIs};
ghost use Rattle.layout.specs.Ensures.{PutsTo};
ghost use Rattle.printing.specs.Output.{lines_text, listed_text, Few, Printable, OutputIs};

use crate::decimal::put_digits;
use crate::input::{end_of, front};
use crate::stretch_line::put_stretch;
use calendar::listing::{Listing, listing_of};
use layout::strings::put_bytes;
use rules::Refusal;
use stretches::Stretch;

// The first n bytes count; behind them stand zeros. A line takes at most 89, and there are at most 1,096.
// As it is: an array with its count, since the theorems on what is printed (`prints_the_rules`, `one_output`) speak of both.
#[derive(Drop)]
pub struct Printed {
    pub bytes: [u8; 97544],
    pub n: usize,
}

// Each stretch on its line.
fn put_stretches(out: &mut [u8], stretches: &[Stretch]) -> usize
    requires { Printable out.old stretches.now }
    ensures { PutsTo out.old 0 (lines_text stretches.now) out.new result }
{
    let mut at = 0;
    for stretch in stretches {
        at = put_stretch(out, at, *stretch);
    }
    at
}

fn put_refusal(out: &mut [u8], number: u8) -> usize
    requires { 97544 ≤ length out.old }
    ensures { PutsTo out.old 0 (text "refusal " ++ (decimal number ++ text "\n")) out.new result }
{
    let behind = put_bytes(out, 0, b"refusal ");
    let end = put_digits(out, behind, 20, number as u64);
    put_bytes(out, end, b"\n")
}

// Nothing but the refusal, or the lines.
fn put_listing(out: &mut [u8], listing: Listing) -> usize
    requires in_bounds { 97544 ≤ length out.old }
    requires few { Few listing }
    ensures { PutsTo out.old 0 (listed_text listing) out.new result }
{
    if listing.number == 0 {
        return put_stretches(out, listing.stretches.as_slice());
    }
    put_refusal(out, listing.number)
}

// A part that is cut is shorter than it says, and is then refused as any broken one.
fn listing_in(input: &[u8]) -> Listing
    ensures { ListingIs (asked input.now) result }
{
    if 65536 < input.len() {
        return Listing::from(Refusal::BrokenBook);
    }
    let b = front(input);
    let behind = &input[b..];
    let q = front(behind);
    let end = end_of(&behind[q..]);
    listing_of(&input[..b], &behind[..q], end)
}

pub fn output(input: &[u8]) -> Printed
    ensures { OutputIs input.now result }
{
    let listing = listing_in(input);
    let mut bytes = [0u8; 97544];
    let n = put_listing(&mut bytes, listing);
    Printed { bytes, n }
}
