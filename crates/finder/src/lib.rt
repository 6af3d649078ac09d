// The C ABI: thin entries over the crates below, on numbers and slices. include/finder.h declares them.
#![tactic(auto)]

ghost use Rattle.std.specs.Prelude.{◌≡◌};
ghost use Rattle.rules.specs.Plan.{plan_of};
ghost use Rattle.rules.specs.PlanCheck.{plan_checks};
ghost use Rattle.rules.specs.Refusals.{verdict};
ghost use Rattle.rules.specs.Query.{query_of};
ghost use Rattle.rules.specs.Search as rules;
ghost use Rattle.rules.specs.Sheet.{sheet_of, SheetAnswer};
ghost use Rattle.rules.specs.PullAnswer.{reversal_of, PullAnswer};
ghost use Rattle.rules.specs.YardFile.{lent_of, read};
ghost use Rattle.finder.specs.Numbers.{answer_of, refused_answer, route_answer, answer_numbers, answer_result, refused_pull, pull_numbers, refused_yard, counts_yard, yard_reading};
ghost use Rattle.finder.specs.Version.{version};

use plan::Plan;
use pullout::Reversal;
use rules::refusal::Refusal;
use rules::route::Route;
use sheet::Sheet;
use train::Query;
use yardfile::Counts;

// The five numbers of an answer.
#[repr(C)]
#[derive(Clone, Copy)]
pub struct Answer {
    pub refusal: u32,
    pub place: u32,
    pub total: u32,
    pub reversals: u32,
    pub steps: u32,
}

impl Answer {
    // Neither a refusal nor a walk.
    const ZEROS: Answer = Answer {
        refusal: 0,
        place: 0,
        total: 0,
        reversals: 0,
        steps: 0,
    };
}

impl From<Refusal> for Answer {
    ghost from_gives = { λ refusal answer. answer ≡ refused_answer refusal };

    fn from(refusal: Refusal) -> Answer {
        let place = refusal.place();
        Answer {
            refusal: refusal.number(),
            place,
            ..Answer::ZEROS
        }
    }
}

impl From<Route> for Answer {
    ghost from_gives = { λ route answer. answer ≡ route_answer route };

    fn from(route: Route) -> Answer {
        Answer {
            total: route.total,
            reversals: route.reversals,
            steps: route.steps,
            ..Answer::ZEROS
        }
    }
}

// The three numbers of a pull-out.
#[repr(C)]
#[derive(Clone, Copy)]
pub struct Pull {
    pub refusal: u32,
    pub place: u32,
    pub count: u32,
}

impl From<Refusal> for Pull {
    ghost from_gives = { λ refusal pull. pull ≡ refused_pull refusal };

    fn from(refusal: Refusal) -> Pull {
        Pull {
            refusal: refusal.number(),
            place: refusal.place(),
            count: 0,
        }
    }
}

// The six numbers of a yard file.
#[repr(C)]
#[derive(Clone, Copy)]
pub struct Yard {
    pub refusal: u32,
    pub place: u32,
    pub points: u32,
    pub sections: u32,
    pub turns: u32,
    pub queries: u32,
}

impl From<Refusal> for Yard {
    ghost from_gives = { λ refusal yard. yard ≡ refused_yard refusal };

    fn from(refusal: Refusal) -> Yard {
        Yard {
            refusal: refusal.number(),
            place: refusal.place(),
            points: 0,
            sections: 0,
            turns: 0,
            queries: 0,
        }
    }
}

impl From<Counts> for Yard {
    ghost from_gives = { λ counts yard. yard ≡ counts_yard counts };

    fn from(counts: Counts) -> Yard {
        Yard {
            refusal: 0,
            place: 0,
            points: counts.points,
            sections: counts.sections,
            turns: counts.turns,
            queries: counts.queries,
        }
    }
}

// Refusals 1 to 6.
#[unsafe(no_mangle)]
pub extern "C" fn finder_check_plan(points: u32, sections: &[u32], turns: &[u32]) -> Answer
    ensures { result ≡ answer_of (rules.refusal (verdict (plan_checks (plan_of points sections.now turns.now)))) }
{
    let plan = Plan {
        points,
        sections,
        turns,
    };
    match plan.check() {
        Ok(()) => Answer::ZEROS,
        Err(refusal) => refusal.into(),
    }
}

// Refusals 1 to 14; the first shortest walk into the front of the route buffer, and all labels.
#[unsafe(no_mangle)]
pub extern "C" fn finder_search(
    points: u32,
    sections: &[u32],
    turns: &[u32],
    length: u32,
    start: u32,
    leave: u32,
    finish: u32,
    enter: u32,
    route: &mut [u32],
    labels: &mut [u32],
) -> Answer
    ensures { rules.Answer (query_of (plan_of points sections.now turns.now) length start leave finish enter) route.old labels.old (answer_result result route.new labels.new) }
{
    let plan = Plan {
        points,
        sections,
        turns,
    };
    let query = Query {
        plan,
        length,
        start,
        leave,
        finish,
        enter,
    };
    match search::search(&query, route, labels) {
        Ok(found) => found.into(),
        Err(refusal) => refusal.into(),
    }
}

// Refusals 1 to 11, 17, 18, 19; the numbers of an accepted list.
#[unsafe(no_mangle)]
pub extern "C" fn finder_check_sheet(
    points: u32,
    sections: &[u32],
    turns: &[u32],
    length: u32,
    start: u32,
    leave: u32,
    finish: u32,
    enter: u32,
    claim: u32,
    list: &[u32],
    labels: &[u32],
) -> Answer
    ensures { SheetAnswer (query_of (plan_of points sections.now turns.now) length start leave finish enter) (sheet_of claim list.now labels.now) (answer_numbers result) }
{
    let plan = Plan {
        points,
        sections,
        turns,
    };
    let query = Query {
        plan,
        length,
        start,
        leave,
        finish,
        enter,
    };
    let sheet = Sheet {
        claim,
        list,
        labels,
    };
    match sheet::check_sheet(&query, &sheet) {
        Ok(Some(route)) => route.into(),
        Ok(None) => Answer::ZEROS,
        Err(refusal) => refusal.into(),
    }
}

// Refusals 1 to 7, 15, 16, 14; the first pull-out into the front of the list.
#[unsafe(no_mangle)]
pub extern "C" fn finder_pull_out(
    points: u32,
    sections: &[u32],
    turns: &[u32],
    length: u32,
    arrival: u32,
    section: u32,
    list: &mut [u32],
) -> Pull
    ensures { PullAnswer (reversal_of (plan_of points sections.now turns.now) length arrival section) list.old (pull_numbers result list.new) }
{
    let plan = Plan {
        points,
        sections,
        turns,
    };
    let reversal = Reversal {
        plan,
        length,
        arrival,
        section,
    };
    match pullout::pull_out(&reversal, list) {
        Ok(count) => Pull {
            refusal: 0,
            place: 0,
            count,
        },
        Err(refusal) => refusal.into(),
    }
}

// Refusals 20 and 14; sections, turns and queries into the fronts of the three tables.
#[unsafe(no_mangle)]
pub extern "C" fn finder_read_yard(
    file: &[u8],
    sections: &mut [u32],
    turns: &mut [u32],
    queries: &mut [u32],
) -> Yard
    ensures { yard_reading result (lent_of sections.new turns.new queries.new) ≡ read file.now (lent_of sections.old turns.old queries.old) }
{
    match yardfile::read_yard(file, sections, turns, queries) {
        Ok(counts) => counts.into(),
        Err(refusal) => refusal.into(),
    }
}

// The version of this library, as include/finder.h writes it.
#[unsafe(no_mangle)]
pub extern "C" fn finder_version() -> u32
    ensures { result ≡ version }
{
    10000
}
