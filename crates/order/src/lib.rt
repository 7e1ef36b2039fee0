// An order file read into a record and two lent rooms, and the labels of the two sides.
#![tactic(auto)]

ghost use Rattle.std.specs.Prelude.{◌≡◌, ◌+◌, ◌*◌, ◌≤◌, ◌<◌, ◌^◌, length};
ghost use Rattle.cell.specs.Limits.{edition};
ghost use Rattle.order.specs.Order.{seats_of, ReadsTo};
ghost use Rattle.order.specs.OrderLaws.{lows_at};
ghost use Rattle.order.specs.Label.{trim_of, LabelOf};

use codes::{Code, Refusal};
use recording::{Certificate, Seat};
use sides::Pair;

// The most entries that a table has.
pub const TABLE: usize = cell::STATES * cell::OPERATIONS;

// A side's piece: its number, and where its label's bytes lie in the file: a place and a length, as C has them, so that no order holds a
// loan.
#[derive(Clone, Copy, Debug, PartialEq, Eq)]
pub struct Piece {
    pub number: u32,
    pub at: usize,
    pub length: usize,
}

// The order that a reading gives. The table's entries and the schedule's are in the lent rooms; eight seats with a count, as in a
// certificate.
#[derive(Clone, Copy, Debug, PartialEq, Eq)]
pub struct Order {
    pub states: usize,
    pub operations: usize,
    pub entries: usize,
    pub start: usize,
    pub count: usize,
    pub seats: [Seat; 8],
    pub pieces: Pair<Piece>,
    pub schedule: usize,
}

// The certificate of an order.
impl From<Order> for Certificate {
    ghost use Rattle.std.specs.Prelude.{◌≡◌};
    ghost use Rattle.order.specs.Order.{certificate_in};

    ghost from_gives = { λ order certificate. certificate ≡ certificate_in order };

    fn from(order: Order) -> Certificate {
        let seats = order.seats;
        Certificate {
            start: order.start,
            count: order.count,
            seats,
        }
    }
}

// The words from `at` on, put into a room: their low bytes, which an entry within its limits is (a TryFrom would ask again).
fn fill(file: &[u8], at: usize, room: &mut [u8])
    requires { at + 4 * length room.old < 2 ^ 64 }
    ensures { room.new ≡ lows_at file.now (length room.old) at }
{
    for (i, entry) in room.iter_mut().enumerate() {
        *entry = (xdr::word_at(file, at + 4 * i) % 256) as u8;
    }
}

// The seats of `count` looms from `at` on.
fn seats(file: &[u8], at: usize, count: usize) -> [Seat; 8]
    requires { (count ≤ 8) × (at + 8 * count < 2 ^ 64) }
    ensures { result ≡ seats_of file.now count at }
{
    let empty = Seat {
        side: 0,
        operation: 0,
    };
    let mut seats = [empty; 8];
    for (i, seat) in seats[..count].iter_mut().enumerate() {
        *seat = Seat {
            side: xdr::word_at(file, at + 8 * i),
            operation: xdr::word_at(file, at + 8 * i + 4),
        };
    }
    seats
}

// Reads an order file. The rooms take the table's entries and the schedule's; a refusal leaves both as they were.
pub fn read(file: &[u8], table: &mut [u8], schedule: &mut [u8]) -> Result<Order, Refusal>
    ensures { ReadsTo
        edition
        file.now
        table.old
        schedule.old
        table.new
        schedule.new
        result }
{
    if table.len() < TABLE || schedule.len() < cell::ENTRIES {
        return Err(Code::NoRoom.at(0));
    }
    let judgement = format::judge(file);
    judgement.verdict?;
    let plan = judgement.plan;
    fill(file, 12, &mut table[..plan.entries]);
    fill(file, plan.schedule + 4, &mut schedule[..plan.acts]);
    Ok(Order {
        states: plan.states,
        operations: plan.operations,
        entries: plan.entries,
        start: xdr::word_at(file, plan.start),
        count: plan.looms,
        seats: seats(file, plan.start + 8, plan.looms),
        // Casts: a word fits in 32 bits, which is proved.
        pieces: Pair {
            a: Piece {
                number: xdr::word_at(file, plan.numbers) as u32,
                at: plan.numbers + 12,
                length: plan.first,
            },
            b: Piece {
                number: xdr::word_at(file, plan.numbers + 4) as u32,
                at: plan.rest + 4,
                length: plan.second,
            },
        },
        schedule: plan.acts,
    })
}

// A label without its trailing spaces: a part of its own bytes.
fn trimmed(label: &[u8]) -> &[u8]
    ensures bytes { result.now ≡ trim_of label.now }
    ensures place { result.ref_ptr ≡ label.entry.ref_ptr }
{
    match label.iter().rposition(|&byte| byte != b' ') {
        Some(last) => &label[..=last],
        None => &label[..0],
    }
}

// The label of side 0 (A) or 1 (B) without its trailing spaces: a part of the caller's own bytes. Any other side number gives the empty
// part at the beginning of label A.
pub fn label<'a>(a: &'a [u8], b: &'a [u8], side: usize) -> &'a [u8]
    ensures { LabelOf a.entry b.entry side result }
{
    match side {
        0 => trimmed(a),
        1 => trimmed(b),
        _ => &a[..0],
    }
}
