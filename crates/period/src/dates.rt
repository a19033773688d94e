// The days of a period as a list.
ghost use Rattle.std.specs.Prelude.{◌≡◌, ◌≤◌, take};

// So many days a period has at most.
pub const MOST_DAYS: usize = 1096;

// The first n of the dates count; behind them stand zeros. They are numbers, as the definitions have them.
// As it is: an array with its count, since the library takes no heap.
#[derive(Drop)]
pub struct Period {
    pub dates: [u32; MOST_DAYS],
    pub n: usize,
    ghost few: { n ≤ 1096 },
}

impl Period {
    pub fn as_slice(&self) -> &[u32]
        ensures { result.now ≡ take self.now.n self.now.dates }
    {
        &self.dates[..self.n]
    }
}
