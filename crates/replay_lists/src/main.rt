//! Traces, each with its pictures: for each a line with the number returned, the index, the counts and a number for each plane of the target. rust/README.md has the records.
#![tactic(auto)]

ghost use Rattle.std.specs.Prelude.{◌≤◌, ◌∷◌, ◌++◌, Some, vec_len};
ghost use Rattle.std.specs.Fmt.{decimal};
ghost use Rattle.replay_lists.specs.declared.TheConstants.{MAX_TRACE_LEN};

use evc_def::RefList;
use evc_lists::{Arbitrary, ArbitraryPlanes, MAX_RECORDS, Pictures, Planes, Record};
use evc_record::{PlanesMut, References};
use evc_replay::EvcReplay;
use std::alloc::{AllocError, Global};
use std::io::{Read, Write};
use std::{fmt, io};

const MAX_MAP_LEN: usize = 4096;

const MAX_TRACE_LEN: usize = 4096;

// The samples of a target are below this.
const TARGET_LIMIT: u16 = 1024;

// The collocated map: arbitrary numbers of a span, around 0.
#[derive(Clone, Copy)]
struct MapRecord {
    arbitrary: Arbitrary,
    span: u16,
}

#[derive(Drop)]
struct Call {
    pictures: Pictures,
    target: ArbitraryPlanes,
    map: Option<MapRecord>,
    trace: Vec<u8>,
    ghost lent: { vec_len trace ≤ MAX_TRACE_LEN },
}

// What a call leaves of a target: a number for each plane.
#[derive(Clone, Copy)]
struct Hashes {
    y: u32,
    u: u32,
    v: u32,
}

#[derive(Clone, Copy)]
struct Answer {
    replayed: EvcReplay,
    target: Hashes,
}

// ---- a record

impl MapRecord {
    fn new([has_map, len, seed, span]: [u16; 4]) -> Option<MapRecord> {
        (has_map == 1).then_some(MapRecord {
            arbitrary: Arbitrary { len, seed },
            span,
        })
    }

    // An arbitrary number of the span, around 0; without a span all are 0.
    fn centred(self, arbitrary: u16) -> i16 {
        let Some(n) = arbitrary.checked_rem(self.span) else {
            return 0
        };
        n.wrapping_sub(self.span / 2).cast_signed()
    }

    fn numbers(self, alloc: Global) -> Result<Vec<i16>, AllocError> {
        self.arbitrary
            .samples(alloc, MAX_MAP_LEN)?
            .iter()
            .map(|arbitrary| self.centred(*arbitrary))
            .collect(alloc)
    }
}

// The bytes of the trace follow the numbers.
impl Record for Call {
    fn read<R: Read>(alloc: Global, input: &mut R) -> io::Result<Option<Call>> {
        let Some(bytes) = evc_lists::read_array::<R, 48>(input)? else {
            return Ok(None)
        };
        let [seed, y_len, u_len, v_len] = evc_lists::numbers::<4>(&bytes[2 * 15..]);
        let [asked] = evc_lists::numbers::<1>(&bytes[2 * 23..]);
        let Some(trace) = evc_lists::read_lent(alloc, input, asked, MAX_TRACE_LEN)? else {
            return Ok(None)
        };
        Ok(Some(Call {
            pictures: Pictures::new(evc_lists::numbers(&bytes)),
            target: ArbitraryPlanes {
                seed,
                y_len,
                u_len,
                v_len,
            },
            map: MapRecord::new(evc_lists::numbers(&bytes[2 * 19..])),
            trace,
        }))
    }
}

// ---- a call

// No `From` of evc_lists: with one, each of the programs would stand on all the crates of evc_mc.
fn lent(planes: &Planes) -> evc_mc::Planes<'_> {
    evc_mc::Planes {
        y: &planes.y,
        u: &planes.u,
        v: &planes.v,
    }
}

impl Call {
    fn map(&self, alloc: Global) -> Result<Option<Vec<i16>>, AllocError> {
        self.map.map(|map| map.numbers(alloc)).transpose()
    }

    fn replay(&self, references: &References, target: &mut Planes) -> EvcReplay {
        let mut target = PlanesMut {
            y: &mut target.y,
            u: &mut target.u,
            v: &mut target.v,
        };
        evc_replay::evc_trace_replay(&self.trace, references, &mut target)
    }

    fn answer(&self, alloc: Global) -> Result<Answer, AllocError> {
        let ref0 = self.pictures.picture(alloc, RefList::List0)?;
        let ref1 = self.pictures.picture(alloc, RefList::List1)?;
        let map = self.map(alloc)?;
        let references = References {
            ref0: lent(&ref0),
            ref1: lent(&ref1),
            col_mv: map.as_deref(),
        };
        let mut target = self.target.planes(alloc, TARGET_LIMIT)?;
        let replayed = self.replay(&references, &mut target);
        let target = Hashes {
            y: evc_lists::hash(&target.y),
            u: evc_lists::hash(&target.u),
            v: evc_lists::hash(&target.v),
        };
        Ok(Answer { replayed, target })
    }

    fn run<W: Write>(&self, alloc: Global, out: &mut W) -> io::Result<()> {
        evc_lists::print_line(out, self.answer(alloc)?)
    }
}

impl fmt::Display for Hashes {
    ghost output = { λ h. Some (decimal h.y ++ 32 ∷ decimal h.u ++ 32 ∷ decimal h.v) };

    fn fmt<W: fmt::Write>(&self, f: &mut fmt::Formatter<W>) -> fmt::Result {
        write!(f, "{} {} {}", self.y, self.u, self.v)
    }
}

impl fmt::Display for Answer {
    fn fmt<W: fmt::Write>(&self, f: &mut fmt::Formatter<W>) -> fmt::Result {
        let r = self.replayed;
        write!(f, "{} {} ", r.code, r.index)?;
        write!(
            f,
            "{} {} {} {} ",
            r.across_low, r.across_high, r.down_low, r.down_high
        )?;
        write!(f, "{}", self.target)
    }
}

// Why each program of a list has such a `main`: `for_each_record` of evc_lists.
fn main(rt: HostRuntime) -> io::Result<()> {
    let alloc = rt.alloc();
    let mut out = io::writer(&rt);
    evc_lists::for_each_record(alloc, &mut rt.reader(), MAX_RECORDS, |_, call: Call| {
        call.run(alloc, &mut out)
    })
}
