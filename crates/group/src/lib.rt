// A group of looms over one cell: opened, stepped and restarted.
#![tactic(auto)]

ghost use Rattle.std.specs.Prelude.{◌≡◌, ℕ, ◌<◌, ◌≤◌, min, get_or, take, count_by};
ghost use Rattle.cell.specs.Limits.{edition};
ghost use Rattle.sides.specs.Sides.{same_side};
ghost use Rattle.recording.specs.Recording.{empty_seat};
ghost use Rattle.loom.specs.Looms.{rules_of};
ghost use Rattle.group.specs.Open.{loom_of, slots_of, fresh_group, no_group, OpensTo, Held};
ghost use Rattle.group.specs.Group.{yielding_of, lead_of, none_of, looms_restarted};
ghost use Rattle.group.specs.Step.{fitted_of, may_step, step_on_of, told_of, step_of, restart_of, restart_all_of};

use cell::Table;
use codes::Code;
use loom::{Lead, Loom, Place, Said, Shared};
use recording::{Certificate, Seat};
use sides::{Pair, Side};

// A group: how many looms it has, the start, the two sets and numbers, fixed at opening; the shared memory; and its looms. Slots beyond
// the count are empty.
#[derive(Clone, Copy, Debug, PartialEq, Eq)]
pub struct Group {
    pub count: usize,
    pub start: u8,
    pub sets: Pair<u64>,
    pub numbers: Pair<u32>,
    pub shared: Shared,
    // Eight slots with the count beside them, since there is no heap and C hands over fixed memory.
    pub looms: [Loom; 8],
}

// What a step on lent memory comes to: the memory and the loom, moved or as they were given, and what it says, or the code that refuses it.
#[derive(Clone, Copy, Debug, PartialEq, Eq)]
pub struct Outcome {
    pub shared: Shared,
    pub loom: Loom,
    pub said: Result<Said, Code>,
}

// What a step that was taken tells: what it says, and the loom's step count.
#[derive(Clone, Copy, Debug, PartialEq, Eq)]
pub struct Told {
    pub said: Said,
    pub steps: u8,
}

// What a step of a group comes to: the group, also where it was refused, and what the step tells, or the code that refuses it.
#[derive(Clone, Copy, Debug, PartialEq, Eq)]
pub struct Stepped {
    pub group: Group,
    pub told: Result<Told, Code>,
}

// What a restart comes to: the group, also where it was refused, and the code that refuses it. (It tells nothing else, unlike a step.)
#[derive(Clone, Copy, Debug, PartialEq, Eq)]
pub struct Restarted {
    pub group: Group,
    pub outcome: Result<(), Code>,
}

// An empty slot.
const EMPTY: Loom = Loom {
    side: Side::A,
    operation: 0,
    steps: 0,
    place: Place::Begin,
};

// The loom of a seat as it opens. (A cast, here and at the start: what is opened fits in a byte, which is proved.)
fn loom_of(seat: Seat) -> Loom
    requires { seat.operation < 256 }
    ensures { result ≡ loom_of seat }
{
    Loom {
        side: Side::from(seat.side),
        operation: seat.operation as u8,
        steps: 0,
        place: Place::Begin,
    }
}

// The slots of a group: a loom for each of the first seats, and empty ones.
#[tactic(auto, using(crate::proofs::OpenLaws::slots_next, crate::proofs::OpenLaws::slots_empty))]
fn slots(seats: [Seat; 8], count: usize) -> [Loom; 8]
    requires { (count ≤ edition.looms) × ((k : ℕ) → k < count → (get_or seats k empty_seat).operation < 256) }
    ensures { result ≡ slots_of count seats }
{
    let mut looms = [EMPTY; 8];
    for i in 0..count {
        looms[i] = loom_of(seats[i]);
    }
    looms
}

// A group as it opens.
fn fresh(certificate: Certificate, sets: Pair<u64>, numbers: Pair<u32>) -> Group
    requires { Held certificate }
    ensures { result ≡ fresh_group certificate sets numbers }
{
    let start = certificate.start as u8;
    Group {
        count: certificate.count,
        start,
        sets,
        numbers,
        shared: Shared {
            cell: start,
            registers: Pair { a: 0, b: 0 },
        },
        looms: slots(certificate.seats, certificate.count),
    }
}

// No group: zeros and empty slots.
pub fn no_group() -> Group
    ensures { result ≡ no_group }
{
    Group {
        count: 0,
        start: 0,
        sets: Pair { a: 0, b: 0 },
        numbers: Pair { a: 0, b: 0 },
        shared: Shared {
            cell: 0,
            registers: Pair { a: 0, b: 0 },
        },
        looms: [EMPTY; 8],
    }
}

// The yielding side of a start and two sets.
fn yielding(start: u8, sets: Pair<u64>) -> Side
    ensures { result ≡ yielding_of start sets }
{
    if sets::has(sets.b, usize::from(start)) {
        Side::A
    } else {
        Side::B
    }
}

// How many of the first looms are of a side: the slots with their count, as a group has them. (`recording` counts seats, whose sides are
// numbers.)
fn side_count(looms: [Loom; 8], count: usize, side: Side) -> usize
    ensures { result ≡ count_by (λ l. same_side l.side side) (take count looms) }
{
    looms
        .iter()
        .take(count)
        .filter(|loom| loom.side == side)
        .count()
}

// The state after an operation in a state, where group and table fit: states and operations within limits, the table's length, the state,
// the operation and the entry.
#[tactic(auto, unfolding(crate::specs::Step::is_unfit))]
fn fitted(table: Table<'_>, operation: usize, state: usize) -> Option<u8>
    ensures { result ≡ fitted_of table.entry.entries.now table.entry.states table.entry.operations operation state }
{
    if table.states < 1
        || cell::STATES < table.states
        || table.operations < 1
        || cell::OPERATIONS < table.operations
        || table.entries.len() != table.states * table.operations
        || table.states <= state
        || table.operations <= operation
    {
        return None;
    }
    table.next(operation, state)
}

// Whether a loom may take a step on the shared memory: the state that its operation leads to, or 32 where group and table don't fit, then
// 31 where the loom has answered.
fn may_step(table: Table<'_>, shared: Shared, loom: Loom) -> Result<u8, Code>
    ensures { result ≡ may_step table.entry.entries.now table.entry.states table.entry.operations shared loom }
{
    let next = fitted(table, usize::from(loom.operation), usize::from(shared.cell));
    let state = next.ok_or(Code::Unfit)?;
    if loom.place.has_answered() {
        return Err(Code::HasAnswered);
    }
    Ok(state)
}

// One step of a loom on the shared memory, by the rules of its group: `number` is what it posts. Refuses with 32 where group and table
// don't fit, then with 31 where the loom has answered; then nothing has moved.
pub fn step_on(lead: Lead, number: u32, table: Table<'_>, shared: Shared, loom: Loom) -> Outcome
    ensures { result ≡ step_on_of (rules_of lead) number table.entry.entries.now table.entry.states table.entry.operations shared loom }
{
    match may_step(table, shared, loom) {
        Err(code) => Outcome {
            shared,
            loom,
            said: Err(code),
        },
        Ok(state) => {
            let turned = loom::turn(lead, number, state, shared, loom);
            Outcome {
                shared: turned.shared,
                loom: turned.loom,
                said: Ok(turned.said),
            }
        }
    }
}

impl Outcome {
    // What the step tells of its loom.
    fn told(self) -> Result<Told, Code>
        ensures { result ≡ told_of self.loom.steps self.said }
    {
        let steps = self.loom.steps;
        self.said.map(|said| Told { said, steps })
    }
}

impl Group {
    // A group opened from a table, a certificate and two numbers. Refuses with the check's codes, then with 10 where a number is 0. The
    // area is as the check leaves it.
    #[tactic(auto, using(crate::proofs::OpenLaws::opens_by), unfolding(crate::specs::Open::opened_by))]
    pub fn open(
        table: Table<'_>,
        certificate: Certificate,
        numbers: Pair<u32>,
        area: &mut [u64],
    ) -> Result<Group, Code>
        ensures { OpensTo table.entry.entries.now table.entry.states table.entry.operations certificate numbers area.old result area.new }
    {
        let judged = recording::judge(table, certificate, area);
        if let Err(refusal) = judged.outcome {
            return Err(refusal.code);
        }
        if numbers.a == 0 || numbers.b == 0 {
            return Err(Code::PieceNumber);
        }
        Ok(fresh(certificate, judged.sets, numbers))
    }

    // What the group's looms go by, for any group; a group of more than 8 has 8 slots to count. It is the same after any act.
    #[tactic(auto, using(crate::specs::GroupLaws::count_of_side), unfolding(crate::specs::Group::lead_of))]
    pub fn lead(self) -> Lead
        ensures { result ≡ lead_of self }
    {
        let yields = yielding(self.start, self.sets);
        let side = yields.other();
        Lead {
            start: self.start,
            side,
            set: self.sets.of(side),
            alone: side_count(self.looms, self.count, yields) == 1,
        }
    }

    // One step of a loom of a group. Refuses with 30 where there is no such loom or the group has more than 8, then with 32 where group and
    // table don't fit, then with 31 where the loom has answered; then the group is as it was given. No group is trusted.
    #[tactic(auto, unfolding(crate::specs::Step::step_of))]
    pub fn step(self, table: Table<'_>, loom: usize) -> Stepped
        ensures { result ≡ step_of table.entry.entries.now table.entry.states table.entry.operations self loom }
    {
        if no_loom(self.count, loom) {
            return Stepped {
                group: self,
                told: Err(Code::NoLoom),
            };
        }
        let own = self.looms[loom];
        let outcome = step_on(
            self.lead(),
            self.numbers.of(own.side),
            table,
            self.shared,
            own,
        );
        let mut after = self;
        after.shared = outcome.shared;
        after.looms[loom] = outcome.loom;
        Stepped {
            group: after,
            told: outcome.told(),
        }
    }

    // A restart of one loom, in any place. Refuses with 30 where there is no such loom or the group has more than 8.
    #[tactic(auto, unfolding(crate::specs::Step::restart_of))]
    pub fn restart(self, loom: usize) -> Restarted
        ensures { result ≡ restart_of self loom }
    {
        if no_loom(self.count, loom) {
            return Restarted {
                group: self,
                outcome: Err(Code::NoLoom),
            };
        }
        let mut looms = self.looms;
        looms[loom] = looms[loom].restarted();
        Restarted {
            group: Group { looms, ..self },
            outcome: Ok(()),
        }
    }

    // A restart of every loom of a group. Refuses with 30 where the group has more than 8.
    #[tactic(auto, unfolding(crate::specs::Step::restart_all_of))]
    pub fn restart_all(self) -> Restarted
        ensures { result ≡ restart_all_of self }
    {
        if cell::LOOMS < self.count {
            return Restarted {
                group: self,
                outcome: Err(Code::NoLoom),
            };
        }
        let looms = restarted_below(self.looms, self.count);
        Restarted {
            group: Group { looms, ..self },
            outcome: Ok(()),
        }
    }
}

// Whether there is no loom of that number among so many, or these are more than 8.
fn no_loom(count: usize, loom: usize) -> bool
    ensures { result ≡ none_of count loom }
{
    cell::LOOMS < count || count <= loom
}

// The looms with those below a number restarted, or all of them where they are fewer.
#[tactic(auto, using(crate::specs::GroupLaws::restarted_next), unfolding(crate::specs::Group::looms_restarted))]
pub fn restarted_below(looms: [Loom; 8], count: usize) -> [Loom; 8]
    ensures { result ≡ looms_restarted looms (min count edition.looms) }
{
    let mut out = looms;
    for i in 0..count.min(cell::LOOMS) {
        out[i] = out[i].restarted();
    }
    out
}
