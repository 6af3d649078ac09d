// Refusals 17 to 19, over the rows of what is asked.
ghost use Rattle.std.specs.Prelude.{◌≡◌, ◌≤◌, length};
ghost use Rattle.train.specs.Asked.{query_lent};
ghost use Rattle.sheet.specs.Lent.{sheet_lent, ReadyFor};
ghost use Rattle.sheet.specs.Checking.{SheetChecked};

use crate::Sheet;
use crate::claim::check_claim;
use crate::nothing::claims_nothing;
use rules::net::{NetTable, Row};
use rules::refusal::Refusal;
use steps::Trip;

// Refusals 17 to 19, with the rows that are lent, one for each label.
fn check_with(trip: &Trip, sheet: &Sheet, rows: &mut [Row]) -> Result<(), Refusal>
    requires ready { ReadyFor trip.now sheet.now }
    requires one_each { length sheet.now.labels.now ≡ length rows.old }
    ensures { SheetChecked (query_lent trip.now.query) (sheet_lent sheet.now) result }
{
    trip.list_steps(rows);
    let net = NetTable {
        rows,
        room: trip.query.finish_room(),
    };
    check_claim(&net, trip.query.start_arrival(), sheet)
}

// The same for at most N arrivals.
fn check_sized<const N: usize>(trip: &Trip, sheet: &Sheet) -> Result<(), Refusal>
    requires ready { ReadyFor trip.now sheet.now }
    requires room { length sheet.now.labels.now ≤ N }
    requires few { N ≤ 2048 }
    ensures { SheetChecked (query_lent trip.now.query) (sheet_lent sheet.now) result }
{
    let mut rows = [Row::BLANK; N];
    let count = sheet.labels.len();
    check_with(trip, sheet, &mut rows[..count])
}

// Refusals 17 to 19, where 1 to 11 do not apply. Clearing rows takes time, so small plans have few.
pub(crate) fn check_over_steps(trip: &Trip, sheet: &Sheet) -> Result<(), Refusal>
    requires { ReadyFor trip.now sheet.now }
    ensures { SheetChecked (query_lent trip.now.query) (sheet_lent sheet.now) result }
{
    if claims_nothing(trip, sheet) {
        return Ok(());
    }
    if sheet.labels.len() <= 128 {
        check_sized::<128>(trip, sheet)
    } else {
        check_sized::<2048>(trip, sheet)
    }
}
