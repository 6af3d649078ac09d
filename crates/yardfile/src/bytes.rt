// Big-endian numbers.
ghost use Rattle.std.specs.Prelude.{◌≡◌, length};
ghost use Rattle.rules.specs.YardFile.{number};
ghost use Rattle.yardfile.specs.Widths.{Width};

// The number of 1, 2 or 4 bytes.
pub(crate) fn number_of(bytes: &[u8]) -> u32
    requires { Width (length bytes.now) }
    ensures { result ≡ number bytes.now }
{
    match *bytes {
        [only] => u32::from(only),
        [high, low] => u32::from(u16::from_be_bytes([high, low])),
        [first, second, third, fourth] => u32::from_be_bytes([first, second, third, fourth]),
        _ => 0,
    }
}
