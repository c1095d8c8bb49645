#![tactic(auto)]

ghost use Rattle.std.specs.Prelude.{◌≡◌, ℕ, Bool, true, false, ◌+◌, ◌-◌, ◌*◌, ◌≤◌, length, IfSome};
ghost use Rattle.std.specs.Bool.{then_some};
ghost use Rattle.evc_def.specs.Lists.{lidx_of};
ghost use Rattle.evc_map.specs.Maps.{mv_len, is_present, numbers_of};
ghost use Rattle.evc_motion.specs.Candidates.{neighbour, flag_outside, maps_short, candidates, get_motion, motion_of};

use evc_def::{
    AVAIL_BIT_LE, AVAIL_BIT_UP, AVAIL_BIT_UP_RI, Block, EvcBlock, EvcMv, GET_AVAIL_FLAG, RefList,
    Refusal, Scu,
};

// The record of the four candidates and their reference numbers.
#[repr(C)]
#[derive(Clone, Copy, Default)]
pub struct EvcCandidates {
    pub left: EvcMv,
    pub up: EvcMv,
    pub up_right: EvcMv,
    pub collocated: EvcMv,
    pub refi: [i8; 4],
}

// The unit `back` before the block's first one, where its flag is set. `then_some` would take the difference where it is not, too,
// and a closure for `then` would have to be told again that it may be taken.
fn unit_before(flagged: bool, scup: Scu, back: Scu) -> Option<Scu>
    requires { flagged ≡ true → back.0 ≤ scup.0 }
    ensures { result ≡ then_some flagged (record { 0 = scup.0 - back.0 }) }
{
    if !flagged {
        return None;
    }
    Some(Scu(scup.0 - back.0))
}

fn neighbour_mv(map_mv: &[i16], list: RefList, unit: Option<Scu>) -> EvcMv
    requires { IfSome unit (λ scup. mv_len * scup.0 + mv_len ≤ length map_mv.now) }
    ensures { (flagged : Bool) (scup : ℕ) → unit ≡ then_some flagged (record { 0 = scup }) → result ≡ neighbour map_mv.now (lidx_of list) flagged scup }
{
    match unit {
        Some(scup) => evc_map::mv_at(map_mv, scup, list),
        None => EvcMv { x: 1, y: 1 },
    }
}

// A flagged neighbour outside the picture, which a block away from the edges does not have.
fn flag_outside(b: Block, avail: u16) -> bool
    ensures { result ≡ flag_outside b.given avail }
{
    let right = b.placed().across().goes_on();
    if (b.given.x != 0) & (b.given.y != 0) & right {
        false
    } else {
        (GET_AVAIL_FLAG(avail, AVAIL_BIT_LE) & (b.given.x == 0))
            | (GET_AVAIL_FLAG(avail, AVAIL_BIT_UP) & (b.given.y == 0))
            | (GET_AVAIL_FLAG(avail, AVAIL_BIT_UP_RI) & ((b.given.y == 0) | !right))
    }
}

fn maps_short(b: Block, map_mv: &[i16], col_mv: Option<&[i16]>) -> bool
    ensures { result ≡ maps_short b.given (length map_mv.now) (is_present col_mv.entry) (length (numbers_of col_mv.entry)) }
{
    evc_map::map_short(b.picture().sides(), map_mv.len()) | evc_map::col_short(b.picture(), col_mv)
}

fn candidates(
    b: Block,
    list: RefList,
    avail: u16,
    map_mv: &[i16],
    col_mv: Option<&[i16]>,
    old: EvcCandidates,
) -> EvcCandidates
    requires long_enough { maps_short b.given (length map_mv.now) (is_present col_mv) (length (numbers_of col_mv)) ≡ false }
    requires inside { flag_outside b.given avail ≡ false }
    ensures { result ≡ candidates b.given (lidx_of list) avail map_mv.now (is_present col_mv.entry) (numbers_of col_mv.entry) old }
{
    let scup = evc_map::first_unit(b);
    let w_scu = evc_map::scu(b.given.pic_w);
    let scuw = evc_map::scu(b.given.w);
    let le = GET_AVAIL_FLAG(avail, AVAIL_BIT_LE);
    let up = GET_AVAIL_FLAG(avail, AVAIL_BIT_UP);
    let up_ri = GET_AVAIL_FLAG(avail, AVAIL_BIT_UP_RI);
    EvcCandidates {
        left: neighbour_mv(map_mv, list, unit_before(le, scup, Scu(1))),
        up: neighbour_mv(map_mv, list, unit_before(up, scup, w_scu)),
        up_right: neighbour_mv(
            map_mv,
            list,
            unit_before(up_ri, scup, Scu(w_scu.0 - scuw.0)),
        ),
        collocated: evc_map::col_mv_at(b, col_mv, RefList::List0, old.collocated),
        refi: [0; 4],
    }
}

// The candidates by value: the record comes in, and comes back filled. The list is the caller's number: its check stands between the others.
pub fn get_motion(
    block: EvcBlock,
    lidx: u32,
    avail: u16,
    map_mv: &[i16],
    col_mv: Option<&[i16]>,
    old: EvcCandidates,
) -> Result<EvcCandidates, Refusal>
    ensures { motion_of old result ≡ get_motion block lidx avail map_mv.now (is_present col_mv.entry) (numbers_of col_mv.entry) old }
{
    let b = Block::new(block)?;
    let list = RefList::try_from(lidx)?;
    if maps_short(b, map_mv, col_mv) {
        return Err(Refusal::Buffer);
    }
    if flag_outside(b, avail) {
        return Err(Refusal::Neighbour);
    }
    Ok(candidates(b, list, avail, map_mv, col_mv, old))
}
