// Byte strings written at a position: a copy of one, and one byte over and over. Each says where what was written ends.
ghost use Rattle.std.specs.Prelude.{◌+◌, ◌≤◌, length, replicate};
ghost use Rattle.layout.specs.Ensures.{PutsTo};

pub fn put_bytes(out: &mut [u8], at: usize, bytes: &[u8]) -> usize
    requires { at + length bytes.now ≤ length out.old }
    ensures { PutsTo out.old at bytes.now out.new result }
{
    // As it is: a loop, since `copy_from_slice` calls memmove, and of the C library only memcpy and memset may be called.
    for (i, b) in bytes.iter().enumerate() {
        out[at + i] = *b;
    }
    at + bytes.len()
}

pub fn put_run(out: &mut [u8], at: usize, byte: u8, n: usize) -> usize
    requires { at + n ≤ length out.old }
    ensures { PutsTo out.old at (replicate n byte) out.new result }
{
    let end = at + n;
    out[at..end].fill(byte);
    end
}
