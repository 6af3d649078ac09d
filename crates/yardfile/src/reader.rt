// A reader of fields, which keeps the file and its place in it together.
ghost use Rattle.std.specs.Prelude.{◌≡◌};
ghost use Rattle.yardfile.specs.Field.{field_at};

// A file and the byte in it at which the next field begins.
#[derive(Clone, Copy)]
pub struct Reader<'a> {
    pub file: &'a [u8],
    pub at: usize,
}

// A whole field: its tag's number and its length.
#[derive(Clone, Copy, Debug, PartialEq, Eq)]
pub struct Field {
    pub tag: u8,
    pub size: usize,
}

impl<'a> Reader<'a> {
    // A reader at a byte of a file.
    fn open_at(file: &'a [u8], at: usize) -> Reader<'a>
        ensures file { result.file ≡ file.entry }
        ensures at { result.at ≡ at }
    {
        Reader { file, at }
    }

    // The field at the reader's place, where the file holds all of it: as many bytes are left after its first three as it says.
    fn field(self) -> Option<Field>
        ensures { result ≡ field_at self.entry.file.now self.entry.at }
    {
        let Reader { file, at } = self;
        let left = file.len().checked_sub(3)?.checked_sub(at)?;
        let size = usize::from(u16::from_be_bytes([file[at + 1], file[at + 2]]));
        if left < size {
            return None;
        }
        Some(Field {
            tag: file[at],
            size,
        })
    }
}

// The field at a byte of a file, by way of a reader.
pub fn field_from(file: &[u8], at: usize) -> Option<Field>
    ensures { result ≡ field_at file.now at }
{
    Reader::open_at(file, at).field()
}
