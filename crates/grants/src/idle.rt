// The granted places that brought no line, as a set.
ghost use Rattle.std.specs.Prelude.{◌≡◌, length};
ghost use Rattle.grants.specs.Table.{table_size};
ghost use Rattle.grants.specs.Idle.{Above, SetAfter, IdleIs};

use crate::places::Places;
use crate::{MOST, is_first};

// The set once a place has come in, if it does. It is above those in the set.
fn after(set: Places, place: u8, comes: bool) -> Places
    requires { Above set.0 place }
    ensures { SetAfter set.0 place comes result.0 }
{
    if comes { set.with(place) } else { set }
}

// The granted places that no line has brought, by a flag for each place. A name that is granted again counts at its first place alone.
pub fn idle_places(g: &[u8], brought: [bool; 256]) -> Places
    requires { length g.now ≡ table_size }
    ensures { IdleIs g.now brought result.0 }
{
    let mut set = Places::NONE;
    for passed in 0..MOST {
        let place = passed + 1;
        let idle = is_first(g, place) & !brought[place];
        set = after(set, place as u8, idle);
    }
    set
}
