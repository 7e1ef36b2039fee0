// The floor `order`.
ghost use Rattle.std.specs.Prelude.{◌≡◌, length, [], ◌≤◌};
ghost use Rattle.order.specs.Label.{by_side, trim_of};
ghost use Rattle.boundary.specs.Orders.{with_seat, with_seats, with_piece, with_head, with_order, with_read, Reads};
ghost use Rattle.order.specs.Order.{zero_order};

use crate::numbers::{refusal_number, refusal_place};
use codes::Refusal;
use order::{Order, Piece};
use recording::Seat;
use sides::Pair;

// The numbers with a seat's written from i on.
fn with_seat(n: [usize; 30], i: usize, seat: Seat) -> [usize; 30]
    requires { i ≤ 21 }
    ensures { result ≡ with_seat n i seat }
{
    let mut out = n;
    out[i] = seat.side;
    out[i + 1] = seat.operation;
    out
}

// The numbers with the seats' written: eight at fixed places of C's numbers, each written out.
fn with_seats(n: [usize; 30], seats: [Seat; 8]) -> [usize; 30]
    ensures { result ≡ with_seats n seats }
{
    let n1 = with_seat(n, 7, seats[0]);
    let n2 = with_seat(n1, 9, seats[1]);
    let n3 = with_seat(n2, 11, seats[2]);
    let n4 = with_seat(n3, 13, seats[3]);
    let n5 = with_seat(n4, 15, seats[4]);
    let n6 = with_seat(n5, 17, seats[5]);
    let n7 = with_seat(n6, 19, seats[6]);
    with_seat(n7, 21, seats[7])
}

// The numbers with a piece's written: its number at one place, its label's at another.
fn with_piece(n: [usize; 30], number: usize, label: usize, piece: Piece) -> [usize; 30]
    requires { (number ≤ 24) × (label ≤ 27) }
    ensures { result ≡ with_piece n number label piece }
{
    let mut out = n;
    out[number] = piece.number as usize;
    out[label] = piece.at;
    out[label + 1] = piece.length;
    out
}

// The numbers with the order's written, but for its seats and pieces.
fn with_head(n: [usize; 30], order: Order) -> [usize; 30]
    ensures { result ≡ with_head n order }
{
    let mut out = n;
    out[2] = order.states;
    out[3] = order.operations;
    out[4] = order.entries;
    out[5] = order.start;
    out[6] = order.count;
    out[29] = order.schedule;
    out
}

// The numbers with all of the order's written.
fn with_order(n: [usize; 30], order: Order) -> [usize; 30]
    ensures { result ≡ with_order n order }
{
    let seated = with_seats(with_head(n, order), order.seats);
    with_piece(
        with_piece(seated, 23, 25, order.pieces.a),
        24,
        27,
        order.pieces.b,
    )
}

// An order of which all is zero.
fn zero_order() -> Order
    ensures { result ≡ zero_order }
{
    let seat = Seat {
        side: 0,
        operation: 0,
    };
    let piece = Piece {
        number: 0,
        at: 0,
        length: 0,
    };
    Order {
        states: 0,
        operations: 0,
        entries: 0,
        start: 0,
        count: 0,
        seats: [seat; 8],
        pieces: Pair { a: piece, b: piece },
        schedule: 0,
    }
}

// The numbers with a reading's written: its code and place, and the order; a refused reading gives zeros.
fn with_read(n: [usize; 30], read: Result<Order, Refusal>) -> [usize; 30]
    ensures { result ≡ with_read n read }
{
    let mut out = n;
    out[0] = refusal_number(read).into();
    out[1] = refusal_place(read);
    with_order(out, read.unwrap_or(zero_order()))
}

// `order::read`: writes what it gives, and fills the rooms.
#[unsafe(no_mangle)]
pub extern "C" fn linuktabay_read(
    file: &[u8],
    table: &mut [u8],
    schedule: &mut [u8],
    out: &mut [usize; 30],
)
    ensures { Reads file.now table.old schedule.old out.old table.new schedule.new out.new }
{
    *out = with_read(*out, order::read(file, table, schedule));
}

// The length of the part that `order::label` gives.
#[unsafe(no_mangle)]
pub extern "C" fn linuktabay_label<'a>(a: &'a [u8], b: &'a [u8], side: usize) -> usize
    ensures { result ≡ length (by_side side (trim_of a.now) (trim_of b.now) []) }
{
    order::label(a, b, side).len()
}
