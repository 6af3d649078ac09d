// Runs: fields of one tag that follow each other. Tags never fall, so a yard file is a run of each tag in turn.
ghost use Rattle.std.specs.Prelude.{◌↔◌, IsTrue};
ghost use Rattle.yardfile.specs.Runs.{IsField, Ran};
ghost use Rattle.yardfile.specs.Tags.{number_of_tag};

use crate::layout::Tag;
use crate::reader::field_from;

// How many fields a run has, and the byte after it.
#[derive(Clone, Copy, Debug, PartialEq, Eq)]
pub struct Run {
    pub count: u32,
    pub end: usize,
}

// A whole field of this tag, as long as its tag says, begins at a byte of the file.
fn is_field(file: &[u8], at: usize, tag: Tag) -> bool
    ensures { IsTrue result ↔ IsField file.now (number_of_tag tag) at }
{
    field_from(file, at).is_some_and(|found| {
        found.tag == tag.number() && found.size == tag.field_bytes()
    })
}

// The fields of one tag from a byte on, as many as there are and may be.
pub(crate) fn run_from(file: &[u8], at: usize, tag: Tag) -> Run
    ensures { Ran file.now (number_of_tag tag) at result }
{
    let most = tag.most();
    let step = 3 + tag.field_bytes();
    let mut end = at;
    for count in 0..most {
        if !is_field(file, end, tag) {
            return Run { count, end };
        }
        end += step;
    }
    Run { count: most, end }
}
