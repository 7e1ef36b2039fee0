// The floor `schedule`.
ghost use Rattle.std.specs.Prelude.{◌≡◌, length};
ghost use Rattle.recording.specs.Check.{area_of};
ghost use Rattle.group.specs.Open.{pieces};
ghost use Rattle.schedule.specs.Run.{unrun, run_of, buffer_of};
ghost use Rattle.boundary.specs.Certificates.{certificate_from};
ghost use Rattle.boundary.specs.Runs.{with_ran, Runs};

use crate::numbers::code_number;
use crate::of_group::with_group;
use crate::of_recording::certificate_from;
use cell::Table;
use schedule::{Ran, Tally};
use sides::Pair;

// A run that was refused: zeros and no looms.
fn unrun() -> Ran
    ensures { result ≡ unrun }
{
    Ran {
        group: group::no_group(),
        tally: Tally {
            entries: 0,
            answers: Pair { a: 0, b: 0 },
            applied: 0,
            longest: 0,
        },
    }
}

// The numbers with a run's written: code, entries, answers for A and for B, operations applied, the longest run.
fn with_ran(n: [usize; 6], code: u8, tally: Tally) -> [usize; 6]
    ensures { result ≡ with_ran n code tally }
{
    let mut out = n;
    out[0] = code.into();
    out[1] = tally.entries;
    out[2] = tally.answers.a;
    out[3] = tally.answers.b;
    out[4] = tally.applied;
    out[5] = tally.longest;
    out
}

// `schedule::run`: writes its counts and the final group.
#[unsafe(no_mangle)]
pub extern "C" fn linuktabay_run(
    table: &[u8],
    states: usize,
    operations: usize,
    start: usize,
    count: usize,
    seats: &[usize; 16],
    a: u32,
    b: u32,
    schedule: &[u8],
    marks: &mut [u8],
    area: &mut [u64],
    group: &mut [usize; 41],
    out: &mut [usize; 6],
)
    ensures { Runs
        (run_of table.now states operations (certificate_from start count seats.now) (pieces a b) schedule.now (length marks.old) (length area.old))
        (buffer_of table.now states operations (certificate_from start count seats.now) (pieces a b) schedule.now marks.old (length area.old))
        (area_of table.now states operations (certificate_from start count seats.now) area.old)
        group.old out.old marks.new area.new group.new out.new }
{
    let table = Table::new(table, states, operations);
    let certificate = certificate_from(start, count, *seats);
    let result = schedule::run(table, certificate, Pair { a, b }, schedule, marks, area);
    let ran = result.unwrap_or(unrun());
    *group = with_group(*group, ran.group);
    *out = with_ran(*out, code_number(result), ran.tally);
}
