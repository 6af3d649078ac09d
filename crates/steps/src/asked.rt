// What the search and the sheet checker refuse alike.
ghost use Rattle.std.specs.Prelude.{◌≡◌};
ghost use Rattle.rules.specs.Refusals.{verdict};
ghost use Rattle.rules.specs.Refused.{verdict_in};
ghost use Rattle.rules.specs.Query.{query_checks};
ghost use Rattle.plan.specs.Ends.{Slots, no_slots};
ghost use Rattle.train.specs.Asked.{query_lent, Accepted};

use rules::refusal::Refusal;
use train::Query;

// Refusals 1 to 11 of a query with so many labels, in their order. It fills the slots of a query that passes.
pub fn check_query(query: &Query, labels: usize, slots: &mut [u32; 2304]) -> Result<(), Refusal>
    requires { slots.old ≡ no_slots }
    ensures answer { verdict_in result ≡ verdict (query_checks (query_lent query.now) labels) }
    ensures slotted { Accepted (query_lent query.now) labels → Slots query.now.plan.sections.now slots.new }
{
    query.plan.check_and_index(slots)?;
    query.check_train()?;
    if labels != 2 * query.plan.section_count() as usize {
        return Err(Refusal::Labels);
    }
    Ok(())
}
