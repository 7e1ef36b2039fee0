// The printer's lines. Each gives the error of a write that failed.
use codes::{Code, Refusal};
use recording::Checked;
use schedule::Tally;
use std::io;

// `FILE code place`, alone for a refused file.
pub fn file_line(rt: &impl Print, refusal: Refusal) -> io::Result<()> {
    println!(rt; "FILE {refusal}")
}

// `CHECK code place a b`.
pub fn check_line(rt: &impl Print, checked: Checked) -> io::Result<()> {
    let (a, b) = (checked.sizes.a, checked.sizes.b);
    match checked.outcome {
        Ok(()) => println!(rt; "CHECK 0 0 {a} {b}"),
        Err(refusal) => println!(rt; "CHECK {refusal} {a} {b}"),
    }
}

// `RUN code entries a b applied longest cell`, of a run that was not refused.
pub fn run_line(rt: &impl Print, tally: Tally, cell: u8) -> io::Result<()> {
    let (a, b) = (tally.answers.a, tally.answers.b);
    println!(rt;
        "RUN 0 {} {a} {b} {} {} {cell}",
        tally.entries, tally.applied, tally.longest
    )
}

// The same of a refused run: zeros.
pub fn unrun_line(rt: &impl Print, code: Code) -> io::Result<()> {
    println!(rt; "RUN {code} 0 0 0 0 0 0")
}

// `MARKS` and the marks as digits; `MARKS` alone for an empty schedule.
pub fn marks_line(rt: &impl Print, marks: &[u8]) -> io::Result<()> {
    if marks.is_empty() {
        return rt.write_all(b"MARKS\n");
    }
    // All at once, and not a write a mark.
    let mut digits = [0u8; cell::ENTRIES];
    for (digit, mark) in digits.iter_mut().zip(marks) {
        *digit = b'0' + mark % 10;
    }
    rt.write_all(b"MARKS ")?;
    rt.write_all(xdr::part_at(&digits, 0, marks.len()))?;
    rt.write_all(b"\n")
}

// `PIECE` and the winner's label; `PIECE` alone for a label trimmed to nothing.
pub fn piece_line(rt: &impl Print, label: &[u8]) -> io::Result<()> {
    if label.is_empty() {
        return rt.write_all(b"PIECE\n");
    }
    rt.write_all(b"PIECE ")?;
    rt.write_all(label)?;
    rt.write_all(b"\n")
}

// `NONE`, with no answer.
pub fn none_line(rt: &impl Print) -> io::Result<()> {
    rt.write_all(b"NONE\n")
}
