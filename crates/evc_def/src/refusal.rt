//! Why a call is refused.

ghost use Rattle.std.specs.Prelude.{◌≡◌};
ghost use Rattle.evc_def.specs.Refusals.{number_of, code_of};

use std::error::Error;
use std::fmt;

// Each has the number that a call returns for it.
#[derive(Clone, Copy, Debug, PartialEq, Eq)]
pub enum Refusal {
    Picture = 1,
    Block = 2,
    List = 3,
    Buffer = 4,
    OrderCount = 5,
    Sample = 6,
    Neighbour = 7,
    Mark = 10,
    Incomplete = 11,
    Record = 12,
    Slice = 13,
}

impl Refusal {
    pub fn number(self) -> u32
        ensures { result ≡ number_of self }
    {
        self as u32
    }
}

// What a call returns for its number: 0 where it is done.
pub fn code(done: Result<(), Refusal>) -> u32
    ensures { result ≡ code_of done }
{
    match done {
        Ok(()) => 0,
        Err(refusal) => refusal.number(),
    }
}

impl fmt::Display for Refusal {
    fn fmt<W: fmt::Write>(&self, f: &mut fmt::Formatter<W>) -> fmt::Result {
        f.write_str(match self {
            Refusal::Picture => "a picture side is not allowed",
            Refusal::Block => "a block side, place or extent is not allowed",
            Refusal::List => "no list is in use, or a list number is neither 0 nor 1",
            Refusal::Buffer => "a buffer that is needed is too short",
            Refusal::OrderCount => "an order count in use exceeds 32767",
            Refusal::Sample => "a sample above 1023 is among those examined",
            Refusal::Neighbour => "a flag names a neighbour outside the picture",
            Refusal::Mark => "no trace, or a trace of another version",
            Refusal::Incomplete => "a trace ends inside its header or inside a record",
            Refusal::Record =>
                "a record has a kind above 3, or a nonzero field that is due to be zero",
            Refusal::Slice => "a slice number exceeds 127",
        })
    }
}

impl Error for Refusal {}
