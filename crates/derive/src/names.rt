// Names as a question has them: how many bytes they take, and written at a position. Each is a part of a text.
ghost use Rattle.std.specs.Prelude.{◌≤◌};
ghost use Rattle.layout.specs.Ensures.{Number, PutsTo};
ghost use Rattle.relation_rules.specs.Derived.{name_in, names_in};
ghost use Rattle.relations.specs.Assignments.{part_in};
ghost use Rattle.relations.specs.Names.{PartIn, names_of};
ghost use Rattle.derive.specs.Written.{taken_by, RoomFor, Few, Inside, SizeIs, NamesRoom};

use layout::numbers::put_two;
use layout::strings::{put_bytes, put_run};
use rules::{PLAIN_FACTOR, Part, WITH_FACTORS};

// Its length, itself and, in version 2, its factor.
fn name_size(size: usize, version: u8) -> usize
    requires { size ≤ 20 }
    ensures { Number (taken_by version size) 24 result }
{
    if version == WITH_FACTORS {
        return size + 3;
    }
    size + 1
}

pub fn names_size(names: &[Part], version: u8) -> usize
    requires { Few names.now }
    ensures { SizeIs version names.now result }
{
    let mut size = 0;
    for name in names {
        size += name_size(name.size, version);
    }
    size
}

fn put_name(out: &mut [u8], at: usize, text: &[u8], name: Part, version: u8) -> usize
    requires part_in { PartIn text.now name }
    requires room_for { RoomFor out.old at version name.size }
    ensures { PutsTo out.old at (name_in version (part_in text.now name)) out.new result }
{
    let from = name.at;
    let to = from + name.size;
    let start = put_run(out, at, name.size as u8, 1);
    let end = put_bytes(out, start, &text[from..to]);
    if version == WITH_FACTORS {
        put_two(out, end, PLAIN_FACTOR);
        return end + 2;
    }
    end
}

pub fn put_names(out: &mut [u8], at: usize, text: &[u8], names: &[Part], version: u8) -> usize
    requires few { Few names.now }
    requires inside { Inside text.now names.now }
    requires names_room { NamesRoom out.old at version text.now names.now }
    ensures { PutsTo out.old at (names_in version (names_of text.now names.now)) out.new result }
{
    let mut end = at;
    for name in names {
        end = put_name(out, end, text, *name, version);
    }
    end
}
