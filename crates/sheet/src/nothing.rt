// A sheet that says nothing but that there is no route, and is right at once.
ghost use Rattle.std.specs.Prelude.{◌≡◌, true, ℕ, get_or};
ghost use Rattle.rules.specs.Net.{no_distance};
ghost use Rattle.train.specs.Asked.{query_lent};
ghost use Rattle.sheet.specs.Lent.{sheet_lent, ReadyFor};
ghost use Rattle.sheet.specs.Checking.{SheetPasses};

use crate::Sheet;
use rules::NO_DISTANCE;
use steps::Trip;

// No label is a number.
fn all_none(labels: &[u32]) -> bool
    ensures { result ≡ true → (a : ℕ) → get_or labels.now a no_distance ≡ no_distance }
{
    labels.iter().all(|label| *label == NO_DISTANCE)
}

// The sheet claims no route, lists and labels nothing, and no walk can end: no rule is left that it could break.
pub(crate) fn claims_nothing(trip: &Trip, sheet: &Sheet) -> bool
    requires { ReadyFor trip.now sheet.now }
    ensures { result ≡ true → SheetPasses (query_lent trip.now.query) (sheet_lent sheet.now) }
{
    sheet.claim == 0 && sheet.list.is_empty() && !trip.has_end() && all_none(sheet.labels)
}
