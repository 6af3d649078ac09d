// Copying numbers.
ghost use Rattle.std.specs.Prelude.{◌≡◌, length};

// Writes a list over another of its length. Not by std's `copy_from_slice`, which calls memmove: the archive is to need memcpy and memset alone.
pub fn copy_into(from: &[u32], to: &mut [u32])
    requires { length from.now ≡ length to.old }
    ensures { to.new ≡ from.now }
{
    for (i, number) in from.iter().enumerate() {
        to[i] = *number;
    }
}
