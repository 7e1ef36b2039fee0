// A run of a schedule: a group opened afresh, each entry taken in order, one mark an entry.
#![tactic(auto)]

ghost use Rattle.std.specs.Prelude.{◌≡◌, Some, ◌++◌, ◌<◌, true, length, drop};
ghost use Rattle.cell.specs.Limits.{edition};
ghost use Rattle.group.specs.Group.{lead_of};
ghost use Rattle.schedule.specs.Acts.{act_of, is_named, all_named};
ghost use Rattle.schedule.specs.Played.{mark_of, tallied, acted_of, begun, played_of, marks_of};
ghost use Rattle.schedule.specs.PlayedLaws.{Within};
ghost use Rattle.schedule.specs.InPlace.{acted_by, come_to, Fitting, leads_to};
ghost use Rattle.schedule.specs.Run.{Playable, refusal_of, RunsTo};

use cell::Table;
use codes::Code;
use group::{Group, Told};
use loom::{Lead, Loom, Said, Shared};
use recording::Certificate;
use sides::{Pair, Side};

// Where restarts begin, and the restart of all, as bytes: an entry taken as a number first is told apart more slowly.
const RESTART: u8 = cell::RESTART as u8;

const ALL: u8 = cell::ALL as u8;

// What an entry says is to be done.
#[derive(Clone, Copy, Debug, PartialEq, Eq)]
pub enum Act {
    Step(usize),
    Restart(usize),
    RestartAll,
}

// What is counted along a run: the entries, the answers for each side, the operations applied, and the longest run.
#[derive(Clone, Copy, Debug, PartialEq, Eq)]
pub struct Tally {
    pub entries: usize,
    pub answers: Pair<usize>,
    pub applied: usize,
    pub longest: usize,
}

// What a run comes to: the final group, and what was counted.
#[derive(Clone, Copy, Debug, PartialEq, Eq)]
pub struct Ran {
    pub group: Group,
    pub tally: Tally,
}

// What a restart tells.
const SILENT: Told = Told {
    said: Said::Nothing,
    steps: 0,
};

// Opens a group afresh, takes each entry of the schedule in order and writes one mark an entry: 1 for an answer with side A, 2 with side
// B, 3 for a step refused with 31, else 0; later bytes stay. Refuses with the opening's codes, then with 12 where the schedule has more
// than 4,096 entries, 13 where an entry names no act or no loom of the group, and 40 where there is no room for the marks. A refused run
// writes no mark. The area is as the check leaves it.
pub fn run(
    table: Table<'_>,
    certificate: Certificate,
    numbers: Pair<u32>,
    schedule: &[u8],
    marks: &mut [u8],
    area: &mut [u64],
) -> Result<Ran, Code>
    ensures { RunsTo table.entry.entries.now table.entry.states table.entry.operations certificate numbers schedule.now marks.old area.old
        result marks.new area.new }
{
    let group = Group::open(table, certificate, numbers, area)?;
    refusal(group.count, schedule, marks.len())?;
    Ok(play(group, table, schedule, marks))
}

// The act of an entry, where it names one.
#[tactic(auto, unfolding(crate::specs::Acts::act_of))]
fn act_of(entry: u8) -> Option<Act>
    ensures { result ≡ act_of entry }
{
    if entry < RESTART {
        Some(Act::Step(usize::from(entry)))
    } else if entry < ALL {
        Some(Act::Restart(usize::from(entry - RESTART)))
    } else if entry == ALL {
        Some(Act::RestartAll)
    } else {
        None
    }
}

// Whether there is an act, and its loom is one of `count`.
fn is_named(count: usize, act: Option<Act>) -> bool
    ensures { result ≡ is_named count act }
{
    match act {
        // Two arms: as one with `|` this is slower.
        Some(Act::Step(loom)) => loom < count,
        Some(Act::Restart(loom)) => loom < count,
        Some(Act::RestartAll) => true,
        None => false,
    }
}

// Whether every entry names an act, and a loom of `count` where it names one.
fn all_named(count: usize, schedule: &[u8]) -> bool
    ensures { result ≡ all_named count schedule.now }
{
    schedule.iter().all(|&entry| is_named(count, act_of(entry)))
}

// Why a schedule is not run for a group of `count` looms: 12, 13, then 40.
#[tactic(auto, unfolding(crate::specs::Run::refusal_of))]
fn refusal(count: usize, schedule: &[u8], room: usize) -> Result<(), Code>
    ensures { result ≡ refusal_of count schedule.now room }
{
    if cell::ENTRIES < schedule.len() {
        Err(Code::Schedule)
    } else if !all_named(count, schedule) {
        Err(Code::Act)
    } else if room < schedule.len() {
        Err(Code::NoRoom)
    } else {
        Ok(())
    }
}

// The state that a loom's step leads to, none where it has answered. In a run nothing else refuses a step: the group fits its table.
fn leads_to(table: Table<'_>, memory: Shared, own: Loom) -> Option<u8>
    ensures { result ≡ leads_to table.entry.entries.now table.entry.states memory own }
{
    if own.place.has_answered() {
        return None;
    }
    table.next(usize::from(own.operation), usize::from(memory.cell))
}

// The mark of what an act tells, as the buffer's bytes have it: 1 for an answer with side A, 2 with side B, 3 for a step of a loom that had
// answered, else 0.
fn mark_of(told: Result<Told, Code>) -> u8
    ensures { result ≡ mark_of told }
{
    match told {
        Ok(told) => told.said.mark(),
        Err(Code::HasAnswered) => 3,
        Err(_) => 0,
    }
}

impl Tally {
    // Counts one act more. Nothing else changes a tally.
    #[tactic(auto, unfolding(crate::specs::Played::tallied))]
    fn count(&mut self, told: Result<Told, Code>)
        requires few { self.old.entries < edition.entries }
        requires within { Within self.old.entries self.old }
        ensures { self.new ≡ tallied self.old told }
    {
        self.entries += 1;
        if let Ok(told) = told {
            match told.said {
                Said::Nothing => {}
                Said::Application => self.applied += 1,
                Said::Answer(Side::A, _) => self.answers.a += 1,
                Said::Answer(Side::B, _) => self.answers.b += 1,
            }
            // A restart tells 0, which lengthens nothing. Without the test a run of restarts of one loom takes a fifth longer, or more.
            if told.steps != 0 {
                self.longest = self.longest.max(usize::from(told.steps));
            }
        }
    }
}

// Takes one act, of the three that there are, with the looms and the memory changed in place; what the looms go by is given, since no act
// changes it. The act's loom is one of the group, and the group fits its table, so that only 31 refuses a step.
fn take(
    act: Act,
    opening: &Group,
    lead: Lead,
    table: Table<'_>,
    looms: &mut [Loom; 8],
    memory: &mut Shared,
) -> Result<Told, Code>
    requires named { is_named opening.now.count (Some act) ≡ true }
    requires lead { lead ≡ lead_of (come_to opening.now looms.old memory.old) }
    requires fitting { Fitting table.entries.now table.states table.operations (come_to opening.now looms.old memory.old) }
    ensures { acted_by result (come_to opening.now looms.new memory.new)
        ≡ acted_of table.entry.entries.now table.entry.states table.entry.operations (come_to opening.now looms.old memory.old) (Some act) }
{
    match act {
        Act::Step(k) => {
            let own = looms[k];
            let Some(state) = leads_to(table, *memory, own) else {
                return Err(Code::HasAnswered);
            };
            let turned = loom::turn(lead, opening.numbers.of(own.side), state, *memory, own);
            // Field by field: assigned whole, the bytes between the fields are carried along too, which is slower.
            memory.cell = turned.shared.cell;
            memory.registers = turned.shared.registers;
            looms[k] = turned.loom;
            Ok(Told {
                said: turned.said,
                steps: turned.loom.steps,
            })
        }
        Act::Restart(k) => {
            looms[k] = looms[k].restarted();
            Ok(SILENT)
        }
        Act::RestartAll => {
            *looms = group::restarted_below(*looms, opening.count);
            Ok(SILENT)
        }
    }
}

// Takes each entry in order, and writes its mark. Each entry names an act and its loom, and the group fits its table.
fn play(opening: Group, table: Table<'_>, schedule: &[u8], marks: &mut [u8]) -> Ran
    requires playable { Playable opening.count schedule.now (length marks.old) }
    requires fitting { Fitting table.entries.now table.states table.operations opening }
    ensures ran { result ≡ played_of table.entry.entries.now table.entry.states table.entry.operations (begun opening) schedule.now }
    ensures marked { marks.new
        ≡ marks_of table.entry.entries.now table.entry.states table.entry.operations opening schedule.now
        ++ drop (length schedule.now) marks.old }
{
    let lead = opening.lead();
    let mut looms = opening.looms;
    let mut memory = opening.shared;
    let mut tally = Tally {
        entries: 0,
        answers: Pair { a: 0, b: 0 },
        applied: 0,
        longest: 0,
    };
    for (i, &entry) in schedule.iter().enumerate() {
        let act = act_of(entry).unwrap();
        let told = take(act, &opening, lead, table, &mut looms, &mut memory);
        marks[i] = mark_of(told);
        tally.count(told);
    }
    let group = Group {
        looms,
        shared: memory,
        ..opening
    };
    Ran { group, tally }
}
