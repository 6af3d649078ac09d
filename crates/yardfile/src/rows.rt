// The numbers of fields, written into a table.
ghost use Rattle.std.specs.Prelude.{◌≡◌, ◌*◌, ◌≤◌, length};
ghost use Rattle.std.proofs.lemmas.List.Edits.{sets};
ghost use Rattle.rules.specs.YardFile.{layout, bytes_in, numbers};
ghost use Rattle.yardfile.specs.Runs.{Follow, rows_of};
ghost use Rattle.yardfile.specs.Tags.{number_of_tag};

use crate::bytes::number_of;
use crate::layout::Tag;

// The numbers of a field of a tag, with which some bytes begin, go into a row.
// By index: over `zip` of `iter_mut` no invariant can name the row, and the goal `returns` stays open.
fn put_row(bytes: &[u8], tag: Tag, row: &mut [u32])
    requires held { bytes_in (layout (number_of_tag tag)) ≤ length bytes.now }
    requires room { length row.old ≡ length (layout (number_of_tag tag)) }
    ensures { row.new ≡ numbers (layout (number_of_tag tag)) bytes.now 0 }
{
    let mut at = 0;
    for (i, width) in tag.widths().iter().enumerate() {
        let next = at + *width;
        row[i] = number_of(&bytes[at..next]);
        at = next;
    }
}

// The numbers of a run go into the front of the table.
// By index: over `chunks_exact_mut` no invariant can name the table, and the goal `returns` stays open.
pub(crate) fn put_rows(file: &[u8], from: usize, tag: Tag, count: u32, table: &mut [u32])
    requires follow { Follow file.now (number_of_tag tag) count from }
    requires room { count * length (layout (number_of_tag tag)) ≤ length table.old }
    ensures { table.new ≡ sets table.old 0 (rows_of file.now (number_of_tag tag) count from) }
{
    let step = 3 + tag.field_bytes();
    let columns = tag.widths().len();
    let mut at = from;
    let mut n = 0;
    for _ in 0..count {
        put_row(&file[at + 3..], tag, &mut table[n..n + columns]);
        at += step;
        n += columns;
    }
}
