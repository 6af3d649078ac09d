// The one forbidden turn of each point, where it has one.
ghost use Rattle.plan.specs.Turns.{Turned};
ghost use Rattle.turns.specs.Tables.{TurnTable};

use crate::yard::Turn;
use plan::Plan;

// The turns of a plan, by their points.
pub fn turn_table(plan: &Plan) -> [Option<Turn>; 768]
    requires { Turned plan.now.sections.now plan.now.turns.now }
    ensures { TurnTable plan.now.sections.now plan.now.turns.now result }
{
    let mut table = [None; 768];
    for t in 0..plan.turn_count() {
        let first = plan.turn_number(t, 0);
        let second = plan.turn_number(t, 1);
        table[plan.turn_point(t) as usize] = Some(Turn { first, second });
    }
    table
}
