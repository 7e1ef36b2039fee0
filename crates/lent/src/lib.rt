// The shared memory of a group as one record that is lent to the step and altered there. A restart does not take the record at all: it
// sets a loom's place and count (`Loom::restarted`, `Group::restart`), so there is no restart here.
#![tactic(auto)]

ghost use Rattle.std.specs.Prelude.{◌≡◌};
ghost use Rattle.loom.specs.Looms.{rules_of};
ghost use Rattle.group.specs.Step.{step_on_of};
ghost use Rattle.lent.specs.Lent.{returned_of, left_of};

use cell::Table;
use codes::Code;
use group::Outcome;
use loom::{Lead, Loom, Said, Shared};

// What a step on a lent record hands back: the loom, and what it says, or the code that refuses it.
#[derive(Clone, Copy, Debug, PartialEq, Eq)]
pub struct Lent {
    pub loom: Loom,
    pub said: Result<Said, Code>,
}

// One step of a loom on the lent record, by the rules of its group: `number` is what it posts. Refuses as `group::step_on`, with 32 and
// then 31, and leaves the record and the loom as they were.
pub fn step_lent(shared: &mut Shared, lead: Lead, number: u32, table: Table<'_>, loom: Loom) -> Lent
    ensures handed_back { result
        ≡ returned_of (rules_of lead) number table.entry.entries.now table.entry.states table.entry.operations shared.old loom }
    ensures altered { shared.new
        ≡ left_of (rules_of lead) number table.entry.entries.now table.entry.states table.entry.operations shared.old loom }
{
    let Outcome {
        shared: left,
        loom,
        said,
    } = group::step_on(lead, number, table, *shared, loom);
    *shared = left;
    Lent { loom, said }
}

// The same for a caller that has the record by value: it is held in a local, lent to `step_lent`, and handed back with the answer. It
// says what `group::step_on` says, and can stand in its place.
pub fn stepped_through(
    mut shared: Shared,
    lead: Lead,
    number: u32,
    table: Table<'_>,
    loom: Loom,
) -> Outcome
    ensures { result ≡ step_on_of (rules_of lead) number table.entry.entries.now table.entry.states table.entry.operations shared loom }
{
    let Lent { loom, said } = step_lent(&mut shared, lead, number, table, loom);
    Outcome { shared, loom, said }
}
