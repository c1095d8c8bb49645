#![tactic(auto)]

ghost use Rattle.std.specs.Prelude.{◌≡◌, false, cond, ◌&&◌, eqb, ℕ, ◌+◌, ◌*◌, ◌≤◌, length, get_or};
ghost use Rattle.evc_int.specs.Lists.{with_row};
ghost use Rattle.evc_def.specs.Places.{is_same};
ghost use Rattle.evc_def.specs.Refusals.{code_of};
ghost use Rattle.evc_clip.specs.Clip.{numbers_of, clipped_place};
ghost use Rattle.evc_pick.specs.Inner.{by_block};
ghost use Rattle.evc_pick.specs.declared.PredBlock.TheVariants.{First, Second};
ghost use Rattle.evc_mc.specs.Block.{Component, with_samples, list_sample, first_sample, is_bi, average, pred_len};
ghost use Rattle.evc_mc.specs.Block.{planes_short, list_short, poc_exceeds, list_exceeds, mc2_code, list_moved, answer_of, mc2_answer, mc2_first, mc2_second};
ghost use Rattle.evc_mc.specs.Lent.{lent_list};
ghost use Rattle.evc_mc.specs.Inner.{ListExamined, Accepted, with_list, block_sample, RowSmall, BlockSmall};

use evc_clip::{EvcMoved, MovedMv};
use evc_def::{Block, EvcBlock, EvcMv, MAX_POC, Picture, QpelPlace, Refusal};
use evc_interp::ExaminedWindow;
use evc_pick::PredBlock;
use evc_plane::PlaneType;

// A list of a block as a call takes it: whether it is in use, its vector, and its picture's order count.
#[repr(C)]
#[derive(Clone, Copy)]
pub struct EvcList {
    pub used: bool,
    pub mv: EvcMv,
    pub poc: u32,
}

// What clipping did to each list's vector.
#[derive(Clone, Copy)]
pub struct ListsMoved {
    pub moved0: MovedMv,
    pub moved1: MovedMv,
}

#[repr(C)]
#[derive(Clone, Copy, Default)]
pub struct EvcPredicted {
    pub code: u32,
    pub moved0: EvcMoved,
    pub moved1: EvcMoved,
}

impl From<Result<ListsMoved, Refusal>> for EvcPredicted {
    ghost from_gives = { λ moved answer. answer ≡ answer_of moved };

    fn from(moved: Result<ListsMoved, Refusal>) -> EvcPredicted {
        match moved {
            Ok(ListsMoved { moved0, moved1 }) => EvcPredicted {
                code: 0,
                moved0: EvcMoved::from(moved0),
                moved1: EvcMoved::from(moved1),
            },
            Err(refusal) => EvcPredicted {
                code: refusal.number(),
                ..EvcPredicted::default()
            },
        }
    }
}

pub const PRED_LEN: usize = 6144;

// ---- a list with its picture

// The three planes of a reference picture.
#[derive(Clone, Copy)]
pub struct Planes<'a> {
    pub y: &'a [u16],
    pub u: &'a [u16],
    pub v: &'a [u16],
}

impl Planes<'_> {
    pub fn are_short(self, pic: Picture) -> bool
        ensures { result ≡ planes_short pic.w pic.h self.entry.y.now self.entry.u.now self.entry.v.now }
    {
        let luma = evc_plane::plane_len(PlaneType::Y, pic);
        let chroma = evc_plane::plane_len(PlaneType::UV, pic);
        (self.y.len() < luma) | (self.u.len() < chroma) | (self.v.len() < chroma)
    }
}

// A list in use: its vector, the order count and the planes of its picture. It is lent: a copy for each call that is not built in
// costs a block up to 45 ns.
#[derive(Clone, Copy)]
pub struct RefPicList<'a> {
    pub mv: EvcMv,
    pub poc: u32,
    pub planes: Planes<'a>,
}

// A list of a block, and the clipped place that its vector leads to; of a list that is not in use, the block's own.
#[derive(Clone, Copy)]
struct BlockList<'a> {
    block: Block,
    list: Option<&'a RefPicList<'a>>,
    gmv: QpelPlace,
    ghost clipped: { gmv ≡ clipped_place block.given (lent_list list).list.mv },
}

impl BlockList<'_> {
    #[tactic(auto, unfolding(crate::specs::Block::list_short))]
    fn is_short(&self) -> bool
        ensures { result ≡ list_short self.now.block.given (lent_list self.now.list) }
    {
        let pic = self.block.picture();
        self.list.is_some_and(|l| l.planes.are_short(pic))
    }

    fn poc_exceeds(&self) -> bool
        ensures { result ≡ poc_exceeds (lent_list self.now.list).list }
    {
        self.list.is_some_and(|l| MAX_POC < l.poc)
    }

    fn exceeds(&self) -> bool
        requires { list_short self.now.block.given (lent_list self.now.list) ≡ false }
        ensures { result ≡ list_exceeds self.now.block.given (lent_list self.now.list) }
    {
        let Some(l) = self.list else { return false };
        let Planes { y, u, v } = l.planes;
        let pic = self.block.picture();
        let w = self.block.given.w;
        let h = self.block.given.h;
        let gmv = self.gmv;
        let luma = ExaminedWindow {
            t: PlaneType::Y,
            pic,
            gmv,
            w,
            h,
        };
        let chroma = ExaminedWindow {
            t: PlaneType::UV,
            pic,
            gmv,
            w: w / 2,
            h: h / 2,
        };
        luma.exceeds(y) | chroma.exceeds(u) | chroma.exceeds(v)
    }

    // The block that is empty where this is list 0: the second prediction goes there.
    fn leaves_empty(&self) -> PredBlock
        ensures { result ≡ cond (lent_list self.now.list).list.used Second First }
    {
        match self.list {
            Some(_) => PredBlock::Second,
            None => PredBlock::First,
        }
    }

    // The three planes, if the list is in use, to the block that is picked. The two lent blocks stay apart, here and in evc_record: the picker
    // takes them so (evc_pick), and a struct of both would be taken apart for it.
    fn predict(&self, pred0: &mut [u16], pred1: &mut [u16], to: PredBlock)
        requires list_examined { ListExamined self.now.block.given self.now.gmv (lent_list self.now.list) }
        requires pred_len_in_bounds { (pred_len ≤ length pred0.old) × (pred_len ≤ length pred1.old) }
        ensures pred0_after { pred0.new ≡ by_block to (with_list self.now.block.given (lent_list self.now.list) pred0.old) pred0.old }
        ensures pred1_after { pred1.new ≡ by_block to pred1.old (with_list self.now.block.given (lent_list self.now.list) pred1.old) }
    {
        let Some(l) = self.list else { return };
        let Planes { y, u, v } = l.planes;
        let pic = self.block.picture();
        let w = self.block.given.w as usize;
        let h = self.block.given.h as usize;
        let luma = evc_interp::position_of(PlaneType::Y, pic, l.mv, self.gmv);
        let chroma = evc_interp::position_of(PlaneType::UV, pic, l.mv, self.gmv);
        let offset_u = evc_def::cu_dim_offset(1);
        let offset_v = evc_def::cu_dim_offset(2);
        evc_pick::predict_component(PlaneType::Y, &luma, w, h, y, pred0, pred1, to, 0);
        evc_pick::predict_component(
            PlaneType::UV,
            &chroma,
            w / 2,
            h / 2,
            u,
            pred0,
            pred1,
            to,
            offset_u,
        );
        evc_pick::predict_component(
            PlaneType::UV,
            &chroma,
            w / 2,
            h / 2,
            v,
            pred0,
            pred1,
            to,
            offset_v,
        );
    }

    // A list that is not in use has no report.
    #[tactic(auto, unfolding(crate::specs::Block::list_moved))]
    fn moved(&self) -> MovedMv
        ensures { numbers_of result ≡ list_moved self.now.block.given (lent_list self.now.list).list }
    {
        match self.list {
            Some(l) => evc_clip::moved_mv(self.block.placed(), l.mv),
            None => MovedMv::default(),
        }
    }
}

fn block_list<'a>(b: Block, list: Option<&'a RefPicList<'a>>) -> BlockList<'a>
    ensures { (result.block.given ≡ b.given) × (result.list ≡ list.entry) }
{
    let mv = list.map_or(EvcMv::default(), |l| l.mv);
    let gmv = evc_clip::clipped_place(b.placed(), mv);
    BlockList {
        block: b,
        list,
        gmv,
    }
}

// 3 to 6, of a block that is allowed.
#[tactic(auto, using(crate::proofs::Checks::code_is), unfolding(evc_def::specs::Codes::first_of))]
fn check_lists(l0: &BlockList, l1: &BlockList, pred0: &[u16], pred1: &[u16]) -> Result<(), Refusal>
    requires same_block { l0.now.block.given ≡ l1.now.block.given }
    ensures { code_of result ≡ mc2_code l0.now.block.given (lent_list l0.now.list) (lent_list l1.now.list) pred0.now pred1.now }
{
    if l0.list.is_none() & l1.list.is_none() {
        return Err(Refusal::List);
    }
    if l0.is_short() | l1.is_short() | (pred0.len() < PRED_LEN) | (pred1.len() < PRED_LEN) {
        return Err(Refusal::Buffer);
    }
    if l0.poc_exceeds() | l1.poc_exceeds() {
        return Err(Refusal::OrderCount);
    }
    if l0.exceeds() | l1.exceeds() {
        return Err(Refusal::Sample);
    }
    Ok(())
}

// ---- two predictions

// n samples of both blocks from an offset on: the first block gets the average. `enumerate` and no zip: of what a zip over
// `iter_mut` wrote, a proof knows the length alone.
fn average_plane(pred0: &mut [u16], pred1: &[u16], offset: usize, n: usize)
    requires n_in_bounds { (offset + n ≤ length pred0.old) × (offset + n ≤ length pred1.now) }
    requires row_small { RowSmall pred0.old offset n × RowSmall pred1.now offset n }
    ensures { pred0.new ≡ with_row pred0.old offset n (λ (i : ℕ). average (get_or pred0.old (offset + i) 0) (get_or pred1.now (offset + i) 0)) }
{
    let second = &pred1[offset..offset + n];
    for (i, sample) in pred0[offset..offset + n].iter_mut().enumerate() {
        *sample = (*sample + second[i] + 1) >> 1;
    }
}

// The three planes of both blocks.
fn average_block(b: Block, pred0: &mut [u16], pred1: &[u16])
    requires long_enough { (pred_len ≤ length pred0.old) × (pred_len ≤ length pred1.now) }
    requires block_small { BlockSmall b.given pred0.old × BlockSmall b.given pred1.now }
    ensures { pred0.new ≡ with_samples b.given
        (λ (c : Component) (y x : ℕ). average (block_sample b.given pred0.old c y x) (block_sample b.given pred1.now c y x))
        pred0.old }
{
    let w = b.given.w as usize;
    let h = b.given.h as usize;
    let chroma = (h / 2) * (w / 2);
    let offset_u = evc_def::cu_dim_offset(1);
    let offset_v = evc_def::cu_dim_offset(2);
    average_plane(pred0, pred1, 0, h * w);
    average_plane(pred0, pred1, offset_u, chroma);
    average_plane(pred0, pred1, offset_v, chroma);
}

// Both lists are in use, with equal counts and equal clipped vectors: equal places of the same block.
fn same_motion(l0: &BlockList, l1: &BlockList) -> bool
    ensures { result ≡ (lent_list l0.now.list).list.used && (lent_list l1.now.list).list.used
        && (eqb (lent_list l0.now.list).list.poc (lent_list l1.now.list).list.poc && is_same l0.now.gmv l1.now.gmv) }
{
    match (l0.list, l1.list) {
        (Some(list0), Some(list1)) => (list0.poc == list1.poc) & (l0.gmv == l1.gmv),
        _ => false,
    }
}

// ---- the call

fn predict_lists(l0: &BlockList, l1: &BlockList, pred0: &mut [u16], pred1: &mut [u16])
    requires same_block { l0.now.block.given ≡ l1.now.block.given }
    requires accepted { Accepted l0.now.block.given (lent_list l0.now.list) (lent_list l1.now.list) pred0.old pred1.old }
    ensures pred0_after { let b = l0.now.block.given in
        pred0.new ≡ with_samples b (first_sample b (lent_list l0.now.list) (lent_list l1.now.list)) pred0.old }
    ensures pred1_after { let b = l0.now.block.given in
        let samples = list_sample b (lent_list l1.now.list) in
        pred1.new ≡ cond (is_bi b (lent_list l0.now.list).list (lent_list l1.now.list).list) (with_samples b samples pred1.old) pred1.old }
{
    l0.predict(pred0, pred1, PredBlock::First);
    // Identical motion: list 0 alone stands.
    if same_motion(l0, l1) {
        return;
    }
    l1.predict(pred0, pred1, l0.leaves_empty());
    if l0.list.is_some() & l1.list.is_some() {
        average_block(l0.block, pred0, pred1);
    }
}

// Built into the exported call and into replay's: as a call of its own it takes 96 bytes of stack more, and include/evc_inter.h promises less
// than 2.5 kB (docs/SPEED.md, 'Positions and windows').
#[inline(always)]
pub fn evc_mc2(
    block: EvcBlock,
    list0: Option<&RefPicList>,
    list1: Option<&RefPicList>,
    pred0: &mut [u16],
    pred1: &mut [u16],
) -> Result<ListsMoved, Refusal>
    ensures result_value { answer_of result ≡ mc2_answer block (lent_list list0.entry) (lent_list list1.entry) pred0.old pred1.old }
    ensures pred0_after { pred0.new ≡ mc2_first block (lent_list list0.entry) (lent_list list1.entry) pred0.old pred1.old }
    ensures pred1_after { pred1.new ≡ mc2_second block (lent_list list0.entry) (lent_list list1.entry) pred0.old pred1.old }
{
    let b = Block::new(block)?;
    let l0 = block_list(b, list0);
    let l1 = block_list(b, list1);
    check_lists(&l0, &l1, pred0, pred1)?;
    predict_lists(&l0, &l1, pred0, pred1);
    Ok(ListsMoved {
        moved0: l0.moved(),
        moved1: l1.moved(),
    })
}
