// The rows that are noted for the days of a block.
ghost use Rattle.std.specs.Prelude.{true};

// So many rows are noted at most.
pub const MOST_NOTED: usize = 2048;

// Where the first n rows stand; n is one more than fit where more came than that.
// As it is: an array with its count, since the library takes no heap.
#[derive(Clone, Copy)]
pub struct Noted {
    pub rows: [usize; MOST_NOTED],
    pub n: usize,
}

impl Noted {
    ghost use Rattle.choice.specs.Block.{NotedAfter};

    pub const NONE: Noted = Noted {
        rows: [0; MOST_NOTED],
        n: 0,
    };

    // With the row that stands at `at` behind the others, if there is room for it.
    pub fn push(&mut self, at: usize)
        ensures { NotedAfter self.old true at self.new }
    {
        if self.n < MOST_NOTED {
            self.rows[self.n] = at;
            self.n += 1;
        } else {
            self.n = MOST_NOTED + 1;
        }
    }
}
