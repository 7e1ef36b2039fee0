// A small format over a lent file: the word at a position, a field with its rule, an opaque part with its pad bytes.
#![tactic(auto)]

ghost use Rattle.std.specs.Prelude.{ℕ, ◌≡◌, ◌+◌, ◌<◌, ◌^◌, Bool, length, leb};
ghost use Rattle.codes.specs.declared.Code.TheVariants.{FileEnds};
ghost use Rattle.codes.specs.Codes.{number_of, refused_at};
ghost use Rattle.xdr.specs.Field.{word_at, within, anything, field_with, end_with};
ghost use Rattle.xdr.specs.Opaque.{pad_of, part_of, past_with, opaque_with};

use codes::{Code, Refused};
use std::ops::{Range, RangeFull};

// What a field's value, or each byte of an opaque part, has to keep.
pub trait Rule: Drop {
    ghost allows: { Self → ℕ → Bool };

    fn allows(&self, value: usize) -> bool
        ensures { result ≡ allows self.now value };
}

// From the range's start to below its end.
impl Rule for Range<usize> {
    ghost allows = { λ range. within range.start range.end };

    fn allows(&self, value: usize) -> bool {
        self.contains(&value)
    }
}

// Anything.
impl Rule for RangeFull {
    ghost allows = { λ range. anything };

    fn allows(&self, _value: usize) -> bool {
        true
    }
}

// What can stand as the code of a refusal: document 01's codes, or any number of a byte. It has to say that the file ends before a field
// does.
pub trait Reason: Copy {
    ghost file_ends: { Self };

    fn file_ends() -> Self
        ensures { result ≡ file_ends };
}

impl Reason for Code {
    ghost file_ends = { FileEnds };

    fn file_ends() -> Code {
        Code::FileEnds
    }
}

// By the number of that code.
impl Reason for u8 {
    ghost file_ends = { number_of FileEnds };

    fn file_ends() -> u8 {
        u8::from(Code::FileEnds)
    }
}

// The refusal with a code, at a place.
fn refused<C: Reason>(code: C, place: usize) -> Refused<C>
    ensures { result ≡ refused_at code place }
{
    Refused { code, place }
}

// Whether `count` bytes from `at` on lie within `length` bytes.
pub fn reaches(length: usize, at: usize, count: usize) -> bool
    ensures { result ≡ leb (at + count) length }
{
    at <= length && count <= length - at
}

// The word at a position; 0 where the file ends before it does, since the plan of any file stands on it. The test isn't `reaches`, which
// took a quarter longer over the longest file. (A u32 has no From into a usize.)
#[tactic(auto, unfolding(crate::specs::Field::word_at))]
pub fn word_at(file: &[u8], at: usize) -> usize
    ensures { (result ≡ word_at file.now at) × (result < 2 ^ 32) }
{
    if file.len() < 4 || file.len() - 4 < at {
        return 0;
    }
    u32::from_be_bytes([file[at], file[at + 1], file[at + 2], file[at + 3]]) as usize
}

// The field at a position: refused with code 1 where the file ends before it does, with `code` where its value breaks the rule.
pub fn field_at<R: Rule, C: Reason>(
    file: &[u8],
    at: usize,
    rule: R,
    code: C,
) -> Result<usize, Refused<C>>
    ensures { result ≡ field_with C.file_ends (R.allows rule) code file.now at }
{
    if !reaches(file.len(), at, 4) {
        return Err(refused(C::file_ends(), at));
    }
    let value = word_at(file, at);
    if rule.allows(value) {
        Ok(value)
    } else {
        Err(refused(code, at))
    }
}

// How many pad bytes follow so many bytes.
pub fn pad(count: usize) -> usize
    ensures { (result ≡ pad_of count) × (result < 4) }
{
    (4 - count % 4) % 4
}

// What follows `count` bytes from `at` on and their pad bytes. Refused with code 1 where the file ends before they do.
pub fn past_at<C: Reason>(file: &[u8], at: usize, count: usize) -> Result<usize, Refused<C>>
    ensures { result ≡ past_with C.file_ends file.now count at }
{
    let pads = pad(count);
    if reaches(file.len(), at, count) && reaches(file.len(), at + count, pads) {
        Ok(at + count + pads)
    } else {
        Err(refused(C::file_ends(), at))
    }
}

// The bytes of an opaque part with its pad bytes, and what follows them. Refused with code 1 where the file ends before they do, with
// `code` where a byte breaks the rule; pad bytes are stepped over.
pub fn opaque_at<R: Rule, C: Reason>(
    file: &[u8],
    at: usize,
    count: usize,
    rule: R,
    code: C,
) -> Result<usize, Refused<C>>
    ensures { result ≡ opaque_with C.file_ends (R.allows rule) code file.now count at }
{
    let next = past_at(file, at, count)?;
    let part = &file[at..at + count];
    if part.iter().all(|&byte| rule.allows(usize::from(byte))) {
        Ok(next)
    } else {
        Err(refused(code, at))
    }
}

// `count` bytes from `at` on, as a part of the file; the empty part where the file ends before they do.
pub fn part_at(file: &[u8], at: usize, count: usize) -> &[u8]
    ensures { result.now ≡ part_of file.now at count }
{
    if reaches(file.len(), at, count) {
        &file[at..at + count]
    } else {
        &file[..0]
    }
}

// The file's end: refused with `code` at the first extra byte.
pub fn end_at<C: Reason>(file: &[u8], at: usize, code: C) -> Result<usize, Refused<C>>
    ensures { result ≡ end_with code file.now at }
{
    if file.len() <= at {
        Ok(at)
    } else {
        Err(refused(code, at))
    }
}
