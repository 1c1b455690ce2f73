// Lent slices taken as arrays and copied, and the number handed back where a slice cannot be asked about.
ghost use Rattle.std.specs.Prelude.{◌≡◌, ◌+◌, ◌≤◌, length};
ghost use Rattle.base.specs.Buffer.{put};

// A lent slice has not the length that is asked for.
pub const BAD_LENGTH: u32 = 1_000;

// A slice as an array of its length; nothing is copied.
pub fn array_of<const N: usize>(from: &[u32]) -> &[u32; N]
    requires { length from.now ≡ N }
    ensures { result.now ≡ from.now }
{
    <&[u32; N]>::try_from(from).unwrap()
}

// Copies all of a slice into another, from `at` on.
pub fn copy_at(from: &[u32], to: &mut [u32], at: usize)
    requires { at + length from.now ≤ length to.old }
    ensures { to.new ≡ put to.old at from.now }
{
    to[at..at + from.len()].copy_from_slice(from);
}
