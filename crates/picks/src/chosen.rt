// The chosen rows of a price by value.
ghost use Rattle.std.specs.Prelude.{◌≡◌, ◌≤◌, take};

use lines::Pick;

// In the order of their lines: the first n of the rows count.
// As it is: an array with its count, since the library takes no heap.
#[derive(Drop)]
pub struct Picks {
    pub rows: [Pick; 99],
    pub n: usize,
    ghost few: { n ≤ 99 },
}

impl Picks {
    pub fn as_slice(&self) -> &[Pick]
        ensures { result.now ≡ take self.now.n self.now.rows }
    {
        &self.rows[..self.n]
    }
}
