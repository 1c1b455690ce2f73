// Bytes of a sheet copied into a lent buffer.
ghost use Rattle.std.specs.Prelude.{◌≡◌, ◌+◌, ◌≤◌, length, take, drop};
ghost use Rattle.base.specs.Buffer.{put};

// Copies n bytes of a text from `from` on into the buffer from `at` on, and answers the place behind them.
pub fn copy_bytes(out: &mut [u8], at: usize, text: &[u8], from: usize, n: usize) -> usize
    requires { (at + n ≤ length out.old) × (from + n ≤ length text.now) }
    ensures { (result ≡ at + n) × (out.new ≡ put out.old at (take n (drop from text.now))) }
{
    // byte by byte: the slices' own copy of so many bytes as are known at run time alone asks for memmove from outside
    for i in 0..n {
        out[at + i] = text[from + i];
    }
    at + n
}
