// The label of an arrival, and what the steps of a table offer it.
ghost use Rattle.std.specs.Prelude.{◌≡◌, ◌<◌, length, get_or};
ghost use Rattle.rules.specs.Net.{no_distance};
ghost use Rattle.distance.specs.Labels.{offer, end_offer, best, Lowered};

use rules::NO_DISTANCE;
use rules::net::{NetTable, Row, Step};

// The label of arrival b, or "none" where there is no such arrival.
fn label_at(labels: &[u32], b: u32) -> u32
    ensures { result ≡ get_or labels.now b no_distance }
{
    labels.get(b as usize).copied().unwrap_or(NO_DISTANCE)
}

// What a step offers. "None" is the greatest number, so a sum that is not below it comes out as "none".
#[tactic(auto, unfolding(crate::specs::Labels::offer))]
pub(crate) fn offer(step: &Step, labels: &[u32]) -> u32
    ensures { result ≡ offer step.now labels.now }
{
    step.cost.saturating_add(label_at(labels, step.next))
}

// What the arrival of a row offers by itself.
#[tactic(auto, unfolding(crate::specs::Labels::end_offer))]
pub(crate) fn end_offer(row: &Row, room: u32) -> u32
    ensures { result ≡ end_offer row.now room }
{
    if row.ends { room } else { NO_DISTANCE }
}

// The least of what is offered to arrival a.
#[tactic(auto, unfolding(crate::specs::Labels::best), using(std::proofs::lemmas::List::get_or_default))]
pub(crate) fn best(net: &NetTable, labels: &[u32], a: usize) -> u32
    requires { a < length net.now.rows.now }
    ensures { result ≡ best net.now labels.now a }
{
    let row = &net.rows[a];
    let steps = offer(&row.first, labels).min(offer(&row.second, labels));
    end_offer(row, net.room).min(steps)
}

// Lowers the label of arrival a to v, if that is less; whether it falls.
pub(crate) fn lower(labels: &mut [u32], a: usize, v: u32) -> bool
    requires { a < length labels.old }
    ensures { Lowered labels.old labels.new a v result }
{
    if labels[a] <= v {
        return false;
    }
    labels[a] = v;
    true
}
