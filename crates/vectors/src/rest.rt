// What is still to be read of the vectors.
ghost use Rattle.std.specs.Prelude.{◌≡◌, ◌-◌, ◌<◌, ◌^◌, min, length};

use layout::numbers::four_at;

#[derive(Drop)]
pub struct Rest<'a> {
    pub bytes: &'a [u8],
}

impl<'a> Rest<'a> {
    // The next n bytes, or all that there are.
    pub fn part(&mut self, n: usize) -> &'a [u8]
        ensures size { length result.now ≡ min n (length self.old.bytes.now) }
        ensures left { length self.new.bytes.now ≡ length self.old.bytes.now - n }
    {
        let (part, rest) = self.bytes.split_at(n.min(self.bytes.len()));
        self.bytes = rest;
        part
    }

    // The next number of four bytes, or 0 where they are cut off.
    pub fn number(&mut self) -> usize
        ensures left { length self.new.bytes.now ≡ length self.old.bytes.now - 4 }
        ensures small { result < 2 ^ 32 }
    {
        let four = self.part(4);
        if four.len() < 4 { 0 } else { four_at(four, 0) }
    }
}
