// The floor `group`.
ghost use Rattle.std.specs.Prelude.{◌≡◌, length, ◌≤◌};
ghost use Rattle.recording.specs.Check.{area_of};
ghost use Rattle.group.specs.Open.{open_of, pieces, group_or_none};
ghost use Rattle.boundary.specs.Certificates.{certificate_from};
ghost use Rattle.group.specs.Step.{step_of, restart_of, restart_all_of};
ghost use Rattle.boundary.specs.Groups.{in_byte, in_half, loom_from, slot_from, shared_from, pieces_from, sets_from, looms_from};
ghost use Rattle.boundary.specs.Groups.{group_from, with_four, with_loom, with_board, with_group, with_said, with_told, Restarts, Steps, Opens};

use crate::numbers::code_number;
use crate::of_recording::certificate_from;
use cell::Table;
use codes::Code;
use group::{Group, Told};
use loom::{Loom, Place, Said, Shared};
use sides::{Pair, Side};

// A number of C's in a byte. (Casts, here and in the other floors: C's numbers are words, with no From into what the library has, or from
// it.)
pub fn in_byte(n: usize) -> u8
    ensures { result ≡ in_byte n }
{
    (n % 256) as u8
}

// A number of C's in a half word.
pub fn in_half(n: usize) -> u32
    ensures { result ≡ in_half n }
{
    (n % 4294967296) as u32
}

// The loom of four numbers.
pub fn loom_from(side: usize, operation: usize, place: usize, steps: usize) -> Loom
    ensures { result ≡ loom_from side operation place steps }
{
    Loom {
        side: Side::from(side),
        operation: in_byte(operation),
        steps: in_byte(steps),
        place: Place::from(in_byte(place)),
    }
}

// The loom of the four numbers from i on. C's numbers stand at fixed places: eight slots of four, each written out.
fn slot_from(n: [usize; 41], i: usize) -> Loom
    requires { i ≤ 37 }
    ensures { result ≡ slot_from n i }
{
    loom_from(n[i], n[i + 1], n[i + 2], n[i + 3])
}

// The shared memory of three numbers.
pub fn shared_from(cell: usize, a: usize, b: usize) -> Shared
    ensures { result ≡ shared_from cell a b }
{
    Shared {
        cell: in_byte(cell),
        registers: Pair {
            a: in_half(a),
            b: in_half(b),
        },
    }
}

// The piece numbers of the numbers.
fn pieces_from(n: [usize; 41]) -> Pair<u32>
    ensures { result ≡ pieces_from n }
{
    Pair {
        a: in_half(n[4]),
        b: in_half(n[5]),
    }
}

// The two sets of the numbers.
fn sets_from(n: [usize; 41]) -> Pair<u64>
    ensures { result ≡ sets_from n }
{
    Pair {
        a: n[7] as u64,
        b: n[8] as u64,
    }
}

// The looms of the numbers.
fn looms_from(n: [usize; 41]) -> [Loom; 8]
    ensures { result ≡ looms_from n }
{
    [
        slot_from(n, 9),
        slot_from(n, 13),
        slot_from(n, 17),
        slot_from(n, 21),
        slot_from(n, 25),
        slot_from(n, 29),
        slot_from(n, 33),
        slot_from(n, 37),
    ]
}

// The group of forty-one numbers.
fn group_from(n: [usize; 41]) -> Group
    ensures { result ≡ group_from n }
{
    Group {
        count: n[0],
        start: in_byte(n[6]),
        sets: sets_from(n),
        numbers: pieces_from(n),
        shared: shared_from(n[1], n[2], n[3]),
        looms: looms_from(n),
    }
}

// The numbers with four of them written from i on, so that what follows i is there.
fn with_four(
    n: [usize; 41],
    i: usize,
    side: usize,
    operation: usize,
    place: usize,
    steps: usize,
) -> [usize; 41]
    requires { i ≤ 37 }
    ensures { result ≡ with_four n i side operation place steps }
{
    let mut out = n;
    out[i] = side;
    out[i + 1] = operation;
    out[i + 2] = place;
    out[i + 3] = steps;
    out
}

// The numbers with a loom's written from i on.
fn with_loom(n: [usize; 41], i: usize, loom: Loom) -> [usize; 41]
    requires { i ≤ 37 }
    ensures { result ≡ with_loom n i loom }
{
    with_four(
        n,
        i,
        u8::from(loom.side).into(),
        loom.operation.into(),
        u8::from(loom.place).into(),
        loom.steps.into(),
    )
}

// The numbers with the group's written, but for its looms.
fn with_board(n: [usize; 41], group: Group) -> [usize; 41]
    ensures { result ≡ with_board n group }
{
    let mut out = n;
    out[0] = group.count;
    out[1] = group.shared.cell.into();
    out[2] = group.shared.registers.a as usize;
    out[3] = group.shared.registers.b as usize;
    out[4] = group.numbers.a as usize;
    out[5] = group.numbers.b as usize;
    out[6] = group.start.into();
    out[7] = group.sets.a as usize;
    out[8] = group.sets.b as usize;
    out
}

// The numbers with all of the group's written.
pub fn with_group(n: [usize; 41], group: Group) -> [usize; 41]
    ensures { result ≡ with_group n group }
{
    let looms = group.looms;
    let n1 = with_loom(with_board(n, group), 9, looms[0]);
    let n2 = with_loom(n1, 13, looms[1]);
    let n3 = with_loom(n2, 17, looms[2]);
    let n4 = with_loom(n3, 21, looms[3]);
    let n5 = with_loom(n4, 25, looms[4]);
    let n6 = with_loom(n5, 29, looms[5]);
    let n7 = with_loom(n6, 33, looms[6]);
    with_loom(n7, 37, looms[7])
}

// `Group::restart`: the code, and the group's numbers as it leaves them.
#[unsafe(no_mangle)]
pub extern "C" fn linuktabay_restart(loom: usize, group: &mut [usize; 41]) -> u8
    ensures { Restarts (restart_of (group_from group.old) loom) group.old result group.new }
{
    let restarted = group_from(*group).restart(loom);
    *group = with_group(*group, restarted.group);
    code_number(restarted.outcome)
}

// `Group::restart_all`: the code, and the group's numbers as it leaves them.
#[unsafe(no_mangle)]
pub extern "C" fn linuktabay_restart_all(group: &mut [usize; 41]) -> u8
    ensures { Restarts (restart_all_of (group_from group.old)) group.old result group.new }
{
    let restarted = group_from(*group).restart_all();
    *group = with_group(*group, restarted.group);
    code_number(restarted.outcome)
}

// The numbers with what a step says written: the mark of its answer, whether it applied, the piece number and the step count.
pub fn with_said(n: [usize; 4], said: Said, steps: u8) -> [usize; 4]
    ensures { result ≡ with_said n said steps }
{
    let mut out = n;
    out[0] = said.mark().into();
    out[1] = said.applied().into();
    out[2] = said.piece() as usize;
    out[3] = steps.into();
    out
}

// The same of what a step tells, which is nothing where it was refused.
fn with_told(n: [usize; 4], told: Result<Told, Code>) -> [usize; 4]
    ensures { result ≡ with_told n told }
{
    match told {
        Ok(told) => with_said(n, told.said, told.steps),
        Err(_) => with_said(n, Said::Nothing, 0),
    }
}

// `Group::step`: the code, the group's numbers as it leaves them, and what it says.
#[unsafe(no_mangle)]
pub extern "C" fn linuktabay_step(
    table: &[u8],
    states: usize,
    operations: usize,
    loom: usize,
    group: &mut [usize; 41],
    out: &mut [usize; 4],
) -> u8
    ensures { Steps (step_of table.now states operations (group_from group.old) loom) group.old out.old result group.new out.new }
{
    let table = Table::new(table, states, operations);
    let stepped = group_from(*group).step(table, loom);
    *group = with_group(*group, stepped.group);
    *out = with_told(*out, stepped.told);
    code_number(stepped.told)
}

// The group of an opening; a refused one gives zeros and no looms.
pub fn group_or_none(opened: Result<Group, Code>) -> Group
    ensures { result ≡ group_or_none opened }
{
    opened.unwrap_or(group::no_group())
}

// `Group::open`: the code, and the group's numbers; the area as the check leaves it. A refused opening gives zeros and no looms.
#[unsafe(no_mangle)]
pub extern "C" fn linuktabay_open(
    table: &[u8],
    states: usize,
    operations: usize,
    start: usize,
    count: usize,
    seats: &[usize; 16],
    a: u32,
    b: u32,
    area: &mut [u64],
    group: &mut [usize; 41],
) -> u8
    ensures { Opens (open_of table.now states operations (certificate_from start count seats.now) (pieces a b) (length area.old))
        (area_of table.now states operations (certificate_from start count seats.now) area.old) group.old result group.new area.new }
{
    let table = Table::new(table, states, operations);
    let certificate = certificate_from(start, count, *seats);
    let opened = Group::open(table, certificate, Pair { a, b }, area);
    *group = with_group(*group, group_or_none(opened));
    code_number(opened)
}
