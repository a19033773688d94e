// The granted places that brought no line, as a set.
ghost use Rattle.std.specs.Prelude.{◌≡◌, map, length};
ghost use Rattle.grants.specs.Table.{table_size};
ghost use Rattle.grants.specs.Idle.{Brought};
ghost use Rattle.lines.specs.Views.{views_in};
ghost use Rattle.quote.specs.Quote.{UnusedFor};

use grants::idle::idle_places;
use grants::places::Places;
use lines::Pick;

// Which places the lines have: a flag for each number that a place can be.
fn brought(picks: &[Pick]) -> [bool; 256]
    ensures { Brought (map (λ v. v.place) (views_in picks.now (length picks.now))) result }
{
    let mut flags = [false; 256];
    for pick in picks {
        flags[pick.place as usize] = true;
    }
    flags
}

// The granted places that none of the lines has, by the table of the names.
pub fn unused(table: &[u8], picks: &[Pick]) -> Places
    requires { length table.now ≡ table_size }
    ensures { UnusedFor table.now (map (λ v. v.place) (views_in picks.now (length picks.now))) result.0 }
{
    idle_places(table, brought(picks))
}
