#![tactic(auto)]

ghost use Rattle.std.specs.Prelude.{◌≡◌, ◌<◌, ◌≤◌, Ok, pos, nat_abs, ◌-ℤ◌};
ghost use Rattle.evc_int.specs.LowBits.{low16};
ghost use Rattle.evc_def.specs.Blocks.{max_poc};
ghost use Rattle.evc_map.specs.Maps.{is_present, numbers_of};
ghost use Rattle.evc_direct.specs.Direct.{poc_too_large, exact_quotient, low_mv, direct_vectors, get_mv_dir, answer_of};

use evc_def::{Block, EvcBlock, EvcMv, MAX_POC, RefList, Refusal};

// The order counts of the picture and of its two references, and the first count that reference 1 lists.
#[derive(Clone, Copy)]
pub struct Pocs {
    pub poc: u32,
    pub poc0: u32,
    pub poc1: u32,
    pub list_poc0: u32,
}

// A vector for each list.
#[derive(Clone, Copy, Default)]
pub struct DirectVectors {
    pub mv0: EvcMv,
    pub mv1: EvcMv,
}

#[repr(C)]
#[derive(Clone, Copy, Default)]
pub struct EvcDirect {
    pub code: u32,
    pub mv0: EvcMv,
    pub mv1: EvcMv,
}

impl From<Result<DirectVectors, Refusal>> for EvcDirect {
    ghost from_gives = { λ direct answer. answer ≡ answer_of direct };

    fn from(direct: Result<DirectVectors, Refusal>) -> EvcDirect {
        match direct {
            Ok(DirectVectors { mv0, mv1 }) => EvcDirect { code: 0, mv0, mv1 },
            Err(refusal) => EvcDirect {
                code: refusal.number(),
                ..EvcDirect::default()
            },
        }
    }
}

fn poc_too_large(p: Pocs) -> bool
    ensures { result ≡ poc_too_large p }
{
    (MAX_POC < p.poc) | (MAX_POC < p.poc0) | (MAX_POC < p.poc1) | (MAX_POC < p.list_poc0)
}

// A distance of counts.
#[derive(Clone, Copy)]
struct Dpoc {
    counts: i32,
    ghost small: { nat_abs counts ≤ max_poc },
}

impl Dpoc {
    fn new(poc: u32, other: u32) -> Dpoc
        requires { (poc ≤ max_poc) × (other ≤ max_poc) }
        ensures { result.counts ≡ pos poc -ℤ pos other }
    {
        Dpoc {
            counts: poc as i32 - other as i32,
        }
    }
}

// A component scaled by the distance of counts: the exact quotient, of which the low sixteen bits stay.
fn scaled(d: Dpoc, v: i16, co: Dpoc) -> i16
    requires { 0 < nat_abs co.counts }
    ensures { result ≡ low16 (exact_quotient d.counts v co.counts) }
{
    evc_int::low16(d.counts * (v as i32) / co.counts)
}

fn scaled_mv(d: Dpoc, mv: EvcMv, co: Dpoc) -> EvcMv
    requires { 0 < nat_abs co.counts }
    ensures { result ≡ low_mv (exact_quotient d.counts mv.x co.counts) (exact_quotient d.counts mv.y co.counts) }
{
    EvcMv {
        x: scaled(d, mv.x, co),
        y: scaled(d, mv.y, co),
    }
}

fn direct_vectors(p: Pocs, mv: EvcMv) -> DirectVectors
    requires { (p.poc ≤ max_poc) × (p.poc0 ≤ max_poc) × (p.poc1 ≤ max_poc) × (p.list_poc0 ≤ max_poc) }
    ensures { answer_of (Ok result) ≡ direct_vectors p mv }
{
    if p.poc1 == p.list_poc0 {
        return DirectVectors::default();
    }
    let co = Dpoc::new(p.poc1, p.list_poc0);
    DirectVectors {
        mv0: scaled_mv(Dpoc::new(p.poc, p.poc0), mv, co),
        mv1: scaled_mv(Dpoc::new(p.poc, p.poc1), mv, co),
    }
}

// Built into the exported call and into replay's: with two callers it would be a call of its own, and its Result go through memory (21.5 ns
// for 20.8).
#[inline(always)]
pub fn get_mv_dir(
    block: EvcBlock,
    pocs: Pocs,
    col_mv: Option<&[i16]>,
) -> Result<DirectVectors, Refusal>
    ensures { answer_of result ≡ get_mv_dir block pocs (is_present col_mv.entry) (numbers_of col_mv.entry) }
{
    let b = Block::new(block)?;
    if evc_map::col_short(b.picture(), col_mv) {
        return Err(Refusal::Buffer);
    }
    if poc_too_large(pocs) {
        return Err(Refusal::OrderCount);
    }
    let mv = evc_map::col_mv_at(b, col_mv, RefList::List0, EvcMv::default());
    Ok(direct_vectors(pocs, mv))
}
