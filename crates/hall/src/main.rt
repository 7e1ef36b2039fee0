// The hall printer: reads an order file on standard input and prints what it comes to, document 01's lines.
// What matters is in the library; here bytes go in and lines come out.
#![tactic(auto)]

ghost use Rattle.std.specs.Prelude.{◌≤◌, length, IfOk};

mod print;

use cell::Table;
use order::Order;
use recording::Certificate;
use sides::Pair;
use std::io;
use std::io::Read;

// The buffers, here and below, are fixed: the project has no heap. One byte more than the longest file: whatever follows, a longer file is
// refused within it.
const READ: usize = 20649;

// Reads until the room is full or the input ends: how many bytes.
fn take_in(input: &mut impl Read, room: &mut [u8]) -> io::Result<usize>
    ensures { IfOk result (λ n. n ≤ length room.new) }
{
    let mut n = 0;
    // No count: each read gives as much as it gives.
    while n < room.len() {
        let more = input.read(&mut room[n..])?;
        if more == 0 {
            break;
        }
        n += more;
    }
    Ok(n)
}

// The last line: the winner's label, or that there is no answer.
fn winner_line(rt: &impl Print, file: &[u8], order: Order, answers: Pair<usize>) -> io::Result<()> {
    let side = match (answers.a, answers.b) {
        (0, 0) => return print::none_line(rt),
        (0, _) => 1,
        _ => 0,
    };
    let Pair { a, b } = order.pieces;
    let label_a = xdr::part_at(file, a.at, a.length);
    let label_b = xdr::part_at(file, b.at, b.length);
    print::piece_line(rt, order::label(label_a, label_b, side))
}

// Prints what an order that was read comes to.
fn ordered(
    rt: &impl Print,
    file: &[u8],
    order: Order,
    entries: &[u8],
    schedule: &[u8],
) -> io::Result<()> {
    let mut area = [0u64; 512];
    let table = Table::new(entries, order.states, order.operations);
    let certificate = Certificate::from(order);
    let checked = recording::check(table, certificate, &mut area);
    print::check_line(rt, checked)?;
    if checked.outcome.is_err() {
        return Ok(());
    }
    let mut marks = [0u8; cell::ENTRIES];
    let numbers = Pair {
        a: order.pieces.a.number,
        b: order.pieces.b.number,
    };
    match schedule::run(table, certificate, numbers, schedule, &mut marks, &mut area) {
        Ok(ran) => {
            print::run_line(rt, ran.tally, ran.group.shared.cell)?;
            print::marks_line(rt, xdr::part_at(&marks, 0, ran.tally.entries))?;
            winner_line(rt, file, order, ran.tally.answers)
        }
        Err(code) => {
            print::unrun_line(rt, code)?;
            print::marks_line(rt, &[])?;
            print::none_line(rt)
        }
    }
}

// Prints what a file comes to.
fn report(rt: &impl Print, file: &[u8]) -> io::Result<()> {
    let mut table = [0u8; order::TABLE];
    let mut schedule = [0u8; cell::ENTRIES];
    match order::read(file, &mut table, &mut schedule) {
        Ok(order) => ordered(
            rt,
            file,
            order,
            xdr::part_at(&table, 0, order.entries),
            xdr::part_at(&schedule, 0, order.schedule),
        ),
        Err(refusal) => print::file_line(rt, refusal),
    }
}

fn main(rt: HostRuntime) {
    let mut file = [0u8; READ];
    let Ok(n) = take_in(&mut rt.stdin(), &mut file) else {
        let _ = rt.eprintln("hall: standard input can't be read");
        return;
    };
    if report(&rt, &file[..n]).is_err() {
        let _ = rt.eprintln("hall: standard output can't be written");
    }
}
