// The reader of yard files: refusals 20 and 14, and the tables that a file holds.
#![tactic(auto)]

mod bytes;
mod layout;
pub mod reader;
mod rows;
pub mod run;

ghost use Rattle.std.specs.Prelude.{◌≡◌, IsTrue};
ghost use Rattle.rules.specs.YardFile.{lent_of, in_fronts, holds};
ghost use Rattle.yardfile.specs.Parts.{Parted, Whole, Surveys, tables_of, parts_fit};
ghost use Rattle.yardfile.specs.Answer.{Answers};

use bytes::number_of;
use layout::Tag;
use rows::put_rows;
use rules::refusal::Refusal;
use run::{Run, run_from};

// What a file holds: its points, and how many sections, turns and queries.
#[derive(Clone, Copy, Debug, PartialEq, Eq)]
pub struct Counts {
    pub points: u32,
    pub sections: u32,
    pub turns: u32,
    pub queries: u32,
}

// The three runs that follow the field of V.
#[derive(Clone, Copy, Debug, PartialEq, Eq)]
pub struct Parts {
    pub sections: Run,
    pub turns: Run,
    pub queries: Run,
}

// Where V stands in the field that has it, and the byte after that field.
const POINTS_AT: usize = 3;

const SECTIONS_AT: usize = 5;

// The runs of sections, turns and queries, each from the end of the one before.
fn parts_of(file: &[u8]) -> Parts
    ensures { Parted file.now result }
{
    let sections = run_from(file, SECTIONS_AT, Tag::Sections);
    let turns = run_from(file, sections.end, Tag::Turns);
    let queries = run_from(file, turns.end, Tag::Queries);
    Parts {
        sections,
        turns,
        queries,
    }
}

// The runs of a file without a fault. The first fault stands where the runs end, unless that is the end of the file.
fn survey(file: &[u8]) -> Result<Parts, Refusal>
    ensures { Surveys file.now result }
{
    let first = run_from(file, 0, Tag::Points);
    if first.count == 0 {
        return Err(Refusal::File(0));
    }
    let parts = parts_of(file);
    let end = parts.queries.end;
    if end < file.len() {
        return Err(Refusal::File(end as u32));
    }
    Ok(parts)
}

// The three tables that are lent.
#[derive(Drop)]
struct Lent<'a> {
    sections: &'a mut [u32],
    turns: &'a mut [u32],
    queries: &'a mut [u32],
}

impl Lent<'_> {
    // Each of them holds the file's.
    fn fits(&self, parts: Parts) -> bool
        ensures { result ≡ parts_fit parts (tables_of self.now) }
    {
        parts.sections.count as usize * 6 <= self.sections.len()
            && parts.turns.count as usize * 2 <= self.turns.len()
            && parts.queries.count as usize * 5 <= self.queries.len()
    }

    // The file's three tables go into the fronts of the lent ones.
    fn put(self, file: &[u8], parts: Parts)
        requires whole { Whole file.now parts }
        requires room { IsTrue (holds (tables_of self) file.now) }
        ensures { lent_of self.exit.0.now self.exit.1.0.now self.exit.1.1.0.now ≡ in_fronts file.now (tables_of self.entry) }
    {
        put_rows(
            file,
            SECTIONS_AT,
            Tag::Sections,
            parts.sections.count,
            self.sections,
        );
        put_rows(
            file,
            parts.sections.end,
            Tag::Turns,
            parts.turns.count,
            self.turns,
        );
        put_rows(
            file,
            parts.turns.end,
            Tag::Queries,
            parts.queries.count,
            self.queries,
        );
    }
}

// Reads a yard file into the fronts of three lent tables: any bytes, any lengths.
pub fn read_yard(
    file: &[u8],
    sections: &mut [u32],
    turns: &mut [u32],
    queries: &mut [u32],
) -> Result<Counts, Refusal>
    ensures { Answers file.now (lent_of sections.old turns.old queries.old) result (lent_of sections.new turns.new queries.new) }
{
    let parts = survey(file)?;
    let lent = Lent {
        sections,
        turns,
        queries,
    };
    if !lent.fits(parts) {
        return Err(Refusal::Buffer);
    }
    lent.put(file, parts);
    Ok(Counts {
        points: number_of(&file[POINTS_AT..SECTIONS_AT]),
        sections: parts.sections.count,
        turns: parts.turns.count,
        queries: parts.queries.count,
    })
}
