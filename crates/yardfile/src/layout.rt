// The tags: how long their fields are, of which numbers they are made, and how many a file may have.
ghost use Rattle.std.specs.Prelude.{◌≡◌};
ghost use Rattle.rules.specs.YardFile.{layout, bytes_in, limit};
ghost use Rattle.yardfile.specs.Tags.{number_of_tag};

// What a field holds: V, a section, a turn or a query.
#[derive(Clone, Copy, Debug, PartialEq, Eq)]
pub enum Tag {
    Points,
    Sections,
    Turns,
    Queries,
}

// The bytes of each number of a field.
const POINTS: [usize; 1] = [2];

const SECTION: [usize; 6] = [2, 2, 4, 1, 4, 4];

const TURN: [usize; 2] = [2, 2];

const QUERY: [usize; 5] = [4, 2, 1, 2, 1];

// V comes once; and how many sections, turns and queries a file has at most.
const ONCE: u32 = 1;

const MOST_SECTIONS: u32 = 1024;

const MOST_TURNS: u32 = 768;

const MOST_QUERIES: u32 = 256;

impl Tag {
    // The byte with which its fields begin.
    pub(crate) fn number(self) -> u8
        ensures { result ≡ number_of_tag self }
    {
        match self {
            Tag::Points => 1,
            Tag::Sections => 2,
            Tag::Turns => 3,
            Tag::Queries => 4,
        }
    }

    // The bytes of each number of a field.
    pub(crate) fn widths(self) -> &'static [usize]
        ensures { result.now ≡ layout (number_of_tag self) }
    {
        match self {
            Tag::Points => &POINTS,
            Tag::Sections => &SECTION,
            Tag::Turns => &TURN,
            Tag::Queries => &QUERY,
        }
    }

    // How many bytes these are in all.
    pub(crate) fn field_bytes(self) -> usize
        ensures { result ≡ bytes_in (layout (number_of_tag self)) }
    {
        match self {
            Tag::Points => 2,
            Tag::Sections => 17,
            Tag::Turns => 4,
            Tag::Queries => 10,
        }
    }

    // How many fields there may be.
    pub(crate) fn most(self) -> u32
        ensures { result ≡ limit (number_of_tag self) }
    {
        match self {
            Tag::Points => ONCE,
            Tag::Sections => MOST_SECTIONS,
            Tag::Turns => MOST_TURNS,
            Tag::Queries => MOST_QUERIES,
        }
    }
}
