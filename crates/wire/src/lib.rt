// What every layer uses: errors (`errors`) and 01's record of a refusal, epochs and sequences, a
// header's 44 bytes read (`fields`) and written (`header`), and bytes copied and cut (`copying`,
// `parts`).
#![tactic(auto)]

pub mod copying;
pub mod errors;
pub mod fields;
pub mod header;
pub mod parts;

ghost use Rattle.std.specs.Prelude.{◌≡◌};
ghost use Rattle.wire.specs.Refusals.{refusal, none};

// The epoch of a session: a RESET starts a new one. (01: epoch and sequence are counted
// separately, and one given in the other's place does not build.)
#[derive(Clone, Copy, Debug, PartialEq, Eq, PartialOrd, Ord, Hash)]
pub struct Epoch(pub u64);

// The number of a record in its direction of a session.
#[derive(Clone, Copy, Debug, PartialEq, Eq, PartialOrd, Ord, Hash)]
pub struct Sequence(pub u64);

// 01's record of a refusal: its number, three figures and two fields of 16 bytes; what a number
// does not use is 0. Number 0: no refusal. All of it is in whole words, which move without gaps.
#[derive(Clone, Copy, Debug, PartialEq, Eq)]
pub struct Refusal {
    pub number: u64,
    pub a: u64,
    pub b: u64,
    pub c: u64,
    pub expected: [u8; 16],
    pub actual: [u8; 16],
}

impl Refusal {
    // No refusal.
    pub fn none() -> Refusal
        ensures { result ≡ none }
    {
        Refusal::new(0, 0, 0, 0)
    }

    // A refusal with its figures.
    pub fn new(number: u64, a: u64, b: u64, c: u64) -> Refusal
        ensures { result ≡ refusal number a b c }
    {
        Refusal {
            number,
            a,
            b,
            c,
            expected: [0u8; 16],
            actual: [0u8; 16],
        }
    }
}
