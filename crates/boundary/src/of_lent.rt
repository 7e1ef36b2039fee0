// The crate `lent`: a step on a record of its own, lent and altered there.
ghost use Rattle.std.specs.Prelude.{◌≡◌};
ghost use Rattle.boundary.specs.Records.{lead_from, own_from, with_memory, with_own, LentSteps};

use crate::numbers::code_number;
use crate::of_group::{in_byte, in_half, loom_from, shared_from, with_said};
use cell::Table;
use loom::{Lead, Loom, Said, Shared};
use sides::Side;

// What the loom goes by: start, leading side, its set, and whether the yielding side has one loom.
fn lead_from(n: [usize; 12]) -> Lead
    ensures { result ≡ lead_from n }
{
    Lead {
        start: in_byte(n[0]),
        side: Side::from(n[1]),
        set: n[2] as u64,
        alone: n[3] == 1,
    }
}

// The loom of the numbers.
fn own_from(n: [usize; 12]) -> Loom
    ensures { result ≡ own_from n }
{
    loom_from(n[8], n[9], n[10], n[11])
}

// The numbers with a memory's written.
fn with_memory(n: [usize; 12], shared: Shared) -> [usize; 12]
    ensures { result ≡ with_memory n shared }
{
    let mut out = n;
    out[5] = shared.cell.into();
    out[6] = shared.registers.a as usize;
    out[7] = shared.registers.b as usize;
    out
}

// The numbers with a loom's written. (Tried as one with `of_group`'s over arrays of any length, by a const parameter: its clauses see such
// an array otherwise than these, and didn't hold.)
fn with_own(n: [usize; 12], loom: Loom) -> [usize; 12]
    ensures { result ≡ with_own n loom }
{
    let mut out = n;
    out[8] = u8::from(loom.side).into();
    out[9] = loom.operation.into();
    out[10] = u8::from(loom.place).into();
    out[11] = loom.steps.into();
    out
}

// `lent::stepped_through`: the code, the memory and the loom as it leaves them, and what it says.
#[unsafe(no_mangle)]
pub extern "C" fn linuktabay_step_lent(
    table: &[u8],
    states: usize,
    operations: usize,
    own: &mut [usize; 12],
    out: &mut [usize; 4],
) -> u8
    ensures { LentSteps table.now states operations own.old out.old result own.new out.new }
{
    let table = Table::new(table, states, operations);
    let n = *own;
    let outcome = lent::stepped_through(
        shared_from(n[5], n[6], n[7]),
        lead_from(n),
        in_half(n[4]),
        table,
        own_from(n),
    );
    *own = with_own(with_memory(n, outcome.shared), outcome.loom);
    *out = with_said(
        *out,
        outcome.said.unwrap_or(Said::Nothing),
        outcome.loom.steps,
    );
    code_number(outcome.said)
}
