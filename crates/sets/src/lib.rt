// A set of states in one word: document 01, "Cell and certificate". State q is in the set where digit q of the word is 1.
#![tactic(auto)]

ghost use Rattle.std.specs.Prelude.{◌≡◌};
ghost use Rattle.sets.specs.Sets.{has_of, Union, Common, Inserted, size_of, lowest_of, word_bits};

// Whether a state is in the set. A number beyond the word is in no set.
pub fn has(set: u64, state: usize) -> bool
    ensures { result ≡ has_of set state }
{
    state < 64 && (set >> state) % 2 == 1
}

// The states of either set.
pub fn union(a: u64, b: u64) -> u64
    ensures { Union a b result }
{
    a | b
}

// The states that both sets have.
pub fn common(a: u64, b: u64) -> u64
    ensures { Common a b result }
{
    a & b
}

// The set with one state put in. A number beyond the word adds nothing.
pub fn insert(set: u64, state: usize) -> u64
    ensures { Inserted word_bits set state result }
{
    if state < 64 { set | (1 << state) } else { set }
}

// How many states the set has. (std counts in a `u32`, which has no From into a `usize`; so below.)
pub fn size(set: u64) -> usize
    ensures { result ≡ size_of word_bits set }
{
    set.count_ones() as usize
}

// The lowest state of the set, and 64, which no state has, of the empty set: the count of zeros that document 01 names, as it is, and no
// Option (docs/DECISIONS.md).
pub fn lowest(set: u64) -> usize
    ensures { result ≡ lowest_of word_bits set }
{
    set.trailing_zeros() as usize
}
