// A set of granted places, 1 to 32, as the bits of a number ("From rows to a total": the granted names that brought no line).
ghost use Rattle.std.specs.Prelude.{◌+◌, ◌-◌, ◌^◌, ◌≤◌, ◌<◌, ◌≡◌};
ghost use Rattle.grants.specs.PlaceSet.{Counts};

// The lowest bit stands for place 1.
#[derive(Clone, Copy)]
pub struct Places(pub u32);

impl Places {
    pub const NONE: Places = Places(0);

    // With one place more. Places come in rising order, so each is above those in the set and none is added twice.
    pub fn with(self, place: u8) -> Places
        requires { (1 ≤ place) × ((place ≤ 32) × (self.0 < 2 ^ (place - 1))) }
        ensures { result.0 ≡ 2 ^ (place - 1) + self.0 }
    {
        Places(self.0 | 1u32 << (place - 1))
    }

    // How many places are in the set.
    pub fn count(self) -> u32
        ensures { Counts self.0 result }
    {
        u32::count_ones(self.0)
    }
}
