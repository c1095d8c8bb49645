//! Calls for flags, candidates and direct vectors: for each a line with the number returned and all else that the call gives. rust/README.md has the records.
#![tactic(auto)]

ghost use Rattle.std.specs.Prelude.{◌+◌, ◌<◌, ◌≤◌, ◌∷◌, ◌++◌, Some};
ghost use Rattle.std.specs.Fmt.{signed_decimal};

use evc_def::{EvcBlock, EvcMv, Refusal};
use evc_direct::{EvcDirect, Pocs};
use evc_lists::{Flags, MAX_RECORDS, number32};
use evc_motion::EvcCandidates;
use std::alloc::{AllocError, Global};
use std::io::Write;
use std::{fmt, io};

const RECORD_LEN: usize = 32;

// ---- what is printed

// A vector behind other numbers.
#[derive(Clone, Copy)]
struct Vector(EvcMv);

impl fmt::Display for Vector {
    ghost output = { λ v. Some (32 ∷ signed_decimal v.0.x ++ 32 ∷ signed_decimal v.0.y) };

    fn fmt<W: fmt::Write>(&self, f: &mut fmt::Formatter<W>) -> fmt::Result {
        write!(f, " {} {}", self.0.x, self.0.y)
    }
}

// ---- flags

const MAX_WORDS: usize = 16;

// Where the states of the units begin, a byte each.
const FIRST_STATE: usize = 16;

#[derive(Drop)]
struct FlagsCall {
    block: EvcBlock,
    words: Vec<u32>,
}

impl FlagsCall {
    fn new(alloc: Global, bytes: &[u8; RECORD_LEN]) -> Result<FlagsCall, AllocError> {
        let [asked] = evc_lists::numbers::<1>(&bytes[2 * 7..]);
        let n = evc_lists::lent(asked, MAX_WORDS);
        Ok(FlagsCall {
            block: evc_lists::block(evc_lists::numbers(&bytes[2..])),
            words: evc_lists::words_of(alloc, &bytes[FIRST_STATE..FIRST_STATE + n])?,
        })
    }

    fn answer(&self) -> Flags {
        Flags(evc_avail::get_avail_inter(self.block, &self.words))
    }
}

// ---- made-up motion

const MAX_MAP_LEN: usize = 64;

// From which place of the sequence on a collocated map is, and old vectors; a motion map begins it.
const COL_FROM: u16 = 64;

const OLD_FROM: u16 = 128;

// An arithmetic sequence in sixteen bits.
#[derive(Clone, Copy)]
struct Sequence {
    seed: u16,
    step: u16,
}

impl Sequence {
    fn at(self, k: u16) -> i16 {
        self.seed
            .wrapping_add(self.step.wrapping_mul(k))
            .cast_signed()
    }

    fn vector(self, k: u16) -> EvcMv
        requires { k + 1 < 65536 }
    {
        EvcMv {
            x: self.at(k),
            y: self.at(k + 1),
        }
    }

    fn map(self, alloc: Global, from: u16, n: usize) -> Result<Vec<i16>, AllocError> {
        (from..u16::MAX).take(n).map(|k| self.at(k)).collect(alloc)
    }
}

// The collocated map, if the record has one: so many numbers of it are lent.
fn col_of(
    alloc: Global,
    asked: Option<u16>,
    made: Sequence,
) -> Result<Option<Vec<i16>>, AllocError> {
    asked
        .map(|asked| made.map(alloc, COL_FROM, evc_lists::lent(asked, MAX_MAP_LEN)))
        .transpose()
}

// ---- candidates

#[derive(Drop)]
struct CandidatesCall {
    block: EvcBlock,
    lidx: u32,
    avail: u16,
    map: Vec<i16>,
    col: Option<Vec<i16>>,
    old: EvcCandidates,
}

// What a call gives, and what it leaves where it is refused.
#[derive(Clone, Copy)]
struct Candidates {
    found: Result<EvcCandidates, Refusal>,
    old: EvcCandidates,
}

fn old_of(made: Sequence) -> EvcCandidates {
    EvcCandidates {
        left: made.vector(OLD_FROM),
        up: made.vector(OLD_FROM + 2),
        up_right: made.vector(OLD_FROM + 4),
        collocated: made.vector(OLD_FROM + 6),
        refi: [-1, 1, -128, 127],
    }
}

impl CandidatesCall {
    fn new(alloc: Global, bytes: &[u8; RECORD_LEN]) -> Result<CandidatesCall, AllocError> {
        let [has_col, col_len, seed, step, lidx, avail, map_len, _, _] = evc_lists::numbers::<9>(
            &bytes[2 * 7..],
        );
        let made = Sequence { seed, step };
        Ok(CandidatesCall {
            block: evc_lists::block(evc_lists::numbers(&bytes[2..])),
            lidx: number32(lidx),
            avail,
            map: made.map(alloc, 0, evc_lists::lent(map_len, MAX_MAP_LEN))?,
            col: col_of(alloc, (has_col == 1).then_some(col_len), made)?,
            old: old_of(made),
        })
    }

    fn answer(&self) -> Candidates {
        let found = evc_motion::get_motion(
            self.block,
            self.lidx,
            self.avail,
            &self.map,
            self.col.as_deref(),
            self.old,
        );
        Candidates {
            found,
            old: self.old,
        }
    }
}

impl fmt::Display for Candidates {
    fn fmt<W: fmt::Write>(&self, f: &mut fmt::Formatter<W>) -> fmt::Result {
        let c = self.found.unwrap_or(self.old);
        write!(f, "{}", evc_def::code(self.found.map(|_| ())))?;
        write!(f, "{}{}", Vector(c.left), Vector(c.up))?;
        write!(f, "{}{}", Vector(c.up_right), Vector(c.collocated))?;
        for refi in c.refi {
            write!(f, " {refi}")?;
        }
        Ok(())
    }
}

// ---- direct vectors

#[derive(Drop)]
struct DirectCall {
    block: EvcBlock,
    pocs: Pocs,
    col: Option<Vec<i16>>,
}

#[derive(Clone, Copy)]
struct Direct(EvcDirect);

impl DirectCall {
    fn new(alloc: Global, bytes: &[u8; RECORD_LEN]) -> Result<DirectCall, AllocError> {
        let [has_col, col_len, seed, step, poc, poc0, poc1, list_poc0, _] = evc_lists::numbers::<9>(
            &bytes[2 * 7..],
        );
        let made = Sequence { seed, step };
        Ok(DirectCall {
            block: evc_lists::block(evc_lists::numbers(&bytes[2..])),
            pocs: Pocs {
                poc: number32(poc),
                poc0: number32(poc0),
                poc1: number32(poc1),
                list_poc0: number32(list_poc0),
            },
            col: col_of(alloc, (has_col == 1).then_some(col_len), made)?,
        })
    }

    fn answer(&self) -> Direct {
        Direct(evc_direct::get_mv_dir(self.block, self.pocs, self.col.as_deref()).into())
    }
}

impl fmt::Display for Direct {
    fn fmt<W: fmt::Write>(&self, f: &mut fmt::Formatter<W>) -> fmt::Result {
        let d = self.0;
        write!(f, "{}{}{}", d.code, Vector(d.mv0), Vector(d.mv1))
    }
}

// ---- the list

#[derive(Drop)]
enum Call {
    Flags(FlagsCall),
    Candidates(CandidatesCall),
    Direct(DirectCall),
}

impl Call {
    // Number 0 tells which.
    fn new(alloc: Global, bytes: &[u8; RECORD_LEN]) -> Result<Call, AllocError> {
        Ok(match evc_lists::numbers::<1>(bytes) {
            [0] => Call::Flags(FlagsCall::new(alloc, bytes)?),
            [1] => Call::Candidates(CandidatesCall::new(alloc, bytes)?),
            _ => Call::Direct(DirectCall::new(alloc, bytes)?),
        })
    }

    fn run<W: Write>(&self, out: &mut W) -> io::Result<()> {
        match self {
            Call::Flags(call) => evc_lists::print_line(out, call.answer()),
            Call::Candidates(call) => evc_lists::print_line(out, call.answer()),
            Call::Direct(call) => evc_lists::print_line(out, call.answer()),
        }
    }
}

// Why each program of a list has such a `main`: `for_each_record` of evc_lists.
fn main(rt: HostRuntime) -> io::Result<()> {
    let alloc = rt.alloc();
    let mut out = io::writer(&rt);
    evc_lists::for_each_record(
        alloc,
        &mut rt.reader(),
        MAX_RECORDS,
        |_, bytes: [u8; RECORD_LEN]| { Call::new(alloc, &bytes)?.run(&mut out) },
    )
}
