// Refusals 17, 18 and 19 of a sheet, over the table of its query.
ghost use Rattle.std.specs.Prelude.{◌≡◌, ℕ, ◌≤◌, ◌<◌, length};
ghost use Rattle.rules.specs.Query.{Query};
ghost use Rattle.rules.specs.Trip.{Trip, net_of};
ghost use Rattle.sheet.specs.Lent.{sheet_lent};
ghost use Rattle.sheet.specs.Laid.{LaidOut, Prepared};
ghost use Rattle.sheet.specs.Keeping.{label_at};
ghost use Rattle.sheet.specs.Checking.{DueLabel, LabelsChecked, SheetChecked};

use crate::Sheet;
use crate::rule::first_broken;
use crate::walk::follow;
use rules::NO_DISTANCE;
use rules::net::NetTable;
use rules::refusal::Refusal;

// What the start label has to be, if the claim and the list go together: no route and no list, or a walk and a list that is one.
fn start_due(net: &NetTable, from: usize, sheet: &Sheet) -> Option<usize>
    requires { from < length net.now.rows.now }
    ensures { (q : Query) → Prepared q net.now from → DueLabel q (sheet_lent sheet.now) result }
{
    match sheet.claim {
        0 if sheet.list.is_empty() => Some(NO_DISTANCE as usize),
        1 => {
            let sum = follow(net, from, sheet.list)?;
            Some(sum as usize + net.room as usize)
        }
        _ => None,
    }
}

// Refusals 18 and 19, where the label of the arrival `from` has to be the number due.
fn check_labels(net: &NetTable, from: usize, due: usize, labels: &[u32]) -> Result<(), Refusal>
    requires few { length labels.now ≤ 2048 }
    requires one_each { length labels.now ≡ length net.now.rows.now }
    requires from_in_bounds { from < length labels.now }
    ensures number { label_at labels.now from < 4294967296 }
    ensures answer { (t : Trip) → LaidOut t net.now.rows.now → net.now.room ≡ t.room → LabelsChecked (net_of t) (label_at labels.now) (length labels.now) from due result }
{
    if let Some(bad) = first_broken(net, labels) {
        return Err(Refusal::Label(bad as u32));
    }
    if labels[from] as usize != due {
        return Err(Refusal::StartLabel);
    }
    Ok(())
}

// Refusals 17, 18 and 19 in their order.
pub(crate) fn check_claim(net: &NetTable, from: usize, sheet: &Sheet) -> Result<(), Refusal>
    requires few { length sheet.now.labels.now ≤ 2048 }
    requires one_each { length sheet.now.labels.now ≡ length net.now.rows.now }
    requires from_in_bounds { from < length sheet.now.labels.now }
    ensures { (q : Query) → Prepared q net.now from → SheetChecked q (sheet_lent sheet.now) result }
{
    let Some(due) = start_due(net, from, sheet) else {
        return Err(Refusal::Claim);
    };
    check_labels(net, from, due, sheet.labels)
}
