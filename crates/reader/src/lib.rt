// A reader: a lent file and its own position in it. It hands out one field after another. A refusal is an answer, with its code and place,
// and no refusal moves the reader. Callers that want no reader of their own use `read` and `part_at`.
#![tactic(auto)]

ghost use Rattle.std.specs.Prelude.{◌≡◌};
ghost use Rattle.reader.specs.Reader.{standing, left_of, word_of, end_of, past_of, read_of, PartOf};

use codes::{Code, Refusal};

// The lent file, and where the reader stands in it.
#[derive(Clone, Copy, Debug, PartialEq, Eq)]
pub struct Reader<'a> {
    pub file: &'a [u8],
    pub at: usize,
}

// What a reader says at a position: the word there, where the part there ends, where it stands past that part, and what is left then.
#[derive(Clone, Copy, Debug, PartialEq, Eq)]
pub struct Reading {
    pub word: Result<usize, Refusal>,
    pub end: Result<usize, Refusal>,
    pub next: usize,
    pub left: usize,
}

impl<'a> Reader<'a> {
    // A reader of a file that stands at a position.
    pub fn at(file: &'a [u8], at: usize) -> Self
        ensures { result ≡ standing file.entry at }
    {
        Reader { file, at }
    }

    // Where the reader stands.
    pub fn place(self) -> usize
        ensures { result ≡ self.entry.at }
    {
        self.at
    }

    // How many bytes are left.
    pub fn left(self) -> usize
        ensures { result ≡ left_of self.entry.file.now self.entry.at }
    {
        self.file.len().saturating_sub(self.at)
    }

    // The next word. Refused with code 1 where the file ends before it does.
    pub fn word(self) -> Result<usize, Refusal>
        ensures { result ≡ word_of self.entry.file.now self.entry.at }
    {
        xdr::field_at(self.file, self.at, .., Code::FileEnds)
    }

    // Where the next part of `count` bytes ends with its padding. Refused with code 1 where the file ends before they do.
    pub fn end(self, count: usize) -> Result<usize, Refusal>
        ensures { result ≡ end_of self.entry.file.now count self.entry.at }
    {
        xdr::past_at(self.file, self.at, count)
    }

    // The next part of `count` bytes: the file's own. The empty part at the file's beginning where it is refused.
    pub fn part(self, count: usize) -> &'a [u8]
        ensures { PartOf self.entry.file count self.entry.at result }
    {
        match self.end(count) {
            Ok(_) => &self.file[self.at..self.at + count],
            Err(_) => &self.file[..0],
        }
    }

    // The reader past the next `count` bytes and their padding: 4 for a word. It stands where it stood where they are refused.
    pub fn past(self, count: usize) -> Self
        ensures { result ≡ past_of self.entry count }
    {
        Reader {
            at: self.end(count).unwrap_or(self.at),
            ..self
        }
    }
}

// What a reader made for it says at a position of a file, for a part of `count` bytes.
pub fn read(file: &[u8], at: usize, count: usize) -> Reading
    ensures { result ≡ read_of file.now count at }
{
    let here = Reader::at(file, at);
    let there = here.past(count);
    Reading {
        word: here.word(),
        end: here.end(count),
        next: there.place(),
        left: there.left(),
    }
}

// The part of `count` bytes at a position of a file, handed out by a reader made for it: the file's own bytes. The empty part at the
// file's beginning where it is refused. (`xdr::part_at` asks for no pad bytes, and doesn't say where its part lies.)
pub fn part_at(file: &[u8], at: usize, count: usize) -> &[u8]
    ensures { PartOf file.entry count at result }
{
    Reader::at(file, at).part(count)
}
