// The floor `recording`.
ghost use Rattle.std.specs.Prelude.{◌≡◌, length};
ghost use Rattle.recording.specs.Check.{check_of, area_of};
ghost use Rattle.boundary.specs.Certificates.{seats_from, certificate_from, with_checked};

use crate::numbers::{refusal_number, refusal_place};
use cell::Table;
use recording::{Certificate, Checked, Seat};

// The eight seats of sixteen numbers, a side and an operation each: C's numbers stand at fixed places, so each is written out.
fn seats_from(n: [usize; 16]) -> [Seat; 8]
    ensures { result ≡ seats_from n }
{
    [
        Seat {
            side: n[0],
            operation: n[1],
        },
        Seat {
            side: n[2],
            operation: n[3],
        },
        Seat {
            side: n[4],
            operation: n[5],
        },
        Seat {
            side: n[6],
            operation: n[7],
        },
        Seat {
            side: n[8],
            operation: n[9],
        },
        Seat {
            side: n[10],
            operation: n[11],
        },
        Seat {
            side: n[12],
            operation: n[13],
        },
        Seat {
            side: n[14],
            operation: n[15],
        },
    ]
}

// The certificate of a start, a count and sixteen numbers.
pub fn certificate_from(start: usize, count: usize, n: [usize; 16]) -> Certificate
    ensures { result ≡ certificate_from start count n }
{
    Certificate {
        start,
        count,
        seats: seats_from(n),
    }
}

// The numbers with an answer of the check's written.
fn with_checked(n: [usize; 4], checked: Checked) -> [usize; 4]
    ensures { result ≡ with_checked n checked }
{
    let mut out = n;
    out[0] = refusal_number(checked.outcome).into();
    out[1] = refusal_place(checked.outcome);
    out[2] = checked.sizes.a;
    out[3] = checked.sizes.b;
    out
}

// `recording::check`: writes code, place and sizes.
#[unsafe(no_mangle)]
pub extern "C" fn linuktabay_check(
    table: &[u8],
    states: usize,
    operations: usize,
    start: usize,
    count: usize,
    seats: &[usize; 16],
    area: &mut [u64],
    out: &mut [usize; 4],
)
    ensures { (out.new ≡ with_checked out.old (check_of table.now states operations (certificate_from start count seats.now) (length area.old)))
        × (area.new ≡ area_of table.now states operations (certificate_from start count seats.now) area.old) }
{
    let table = Table::new(table, states, operations);
    let certificate = certificate_from(start, count, *seats);
    *out = with_checked(*out, recording::check(table, certificate, area));
}
