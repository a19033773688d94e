// The wanted names by their marks.
// A head, or a link, is one more than a rank on the list, or 0: the head of a mark leads to the last name that has it, and each
// name's link to the one before it that has the same mark. As `Option<usize>` they would take twice the stack, of which a basket has little left.
ghost use Rattle.std.specs.Prelude.{length};
ghost use Rattle.questions.specs.Questions.{Listed};
ghost use Rattle.wanted.specs.Table.{Filled};

use crate::marks::mark;
use layout::names::same_bytes;
use questions::Name;

// The names stand in the bytes.
#[derive(Drop)]
pub struct Table<'a> {
    pub bytes: &'a [u8],
    pub names: &'a [Name],
    pub heads: [usize; 1024],
    pub links: [usize; 500],
    ghost listed: { Listed bytes.now names.now (length names.now) },
    ghost filled: { Filled bytes.now names.now (length names.now) heads links },
}

impl<'a> Table<'a> {
    ghost use Rattle.std.specs.Prelude.{◌≡◌, ◌<◌};
    ghost use Rattle.wanted.specs.Table.{FoundAt, FoundOr};
    ghost use Rattle.questions.specs.Questions.{name_at};

    // It stays a call of its own, so that its lists are not on the stack twice.
    #[inline(never)]
    pub fn of(bytes: &'a [u8], names: &'a [Name]) -> Table<'a>
        requires { Listed bytes.now names.now (length names.now) }
        ensures bytes_are { result.bytes.now ≡ bytes.now }
        ensures names_are { result.names.now ≡ names.now }
    {
        let mut heads = [0; 1024];
        let mut links = [0; 500];
        for (j, name) in names.iter().enumerate() {
            let m = mark(&bytes[name.start..name.end]);
            links[j] = heads[m];
            heads[m] = j + 1;
        }
        Table {
            bytes,
            names,
            heads,
            links,
        }
    }

    // The last rank on the list that has this name.
    pub fn find(&self, name: &[u8]) -> Option<usize>
        ensures { FoundOr self.now.bytes.now self.now.names.now (length self.now.names.now) name.now result }
    {
        let mut c = self.heads[mark(name)];
        while 0 < c {
            let j = c - 1;
            let there = self.names[j];
            if same_bytes(&self.bytes[there.start..there.end], name) {
                return Some(j);
            }
            c = self.links[j];
        }
        None
    }

    // The last rank on the list of name j: that of names alike is the same.
    pub fn rank(&self, j: usize) -> usize
        requires { j < length self.now.names.now }
        ensures { FoundAt self.now.bytes.now self.now.names.now (length self.now.names.now) (name_at self.now.bytes.now self.now.names.now j) result }
    {
        let name = self.names[j];
        self.find(&self.bytes[name.start..name.end]).unwrap()
    }
}
