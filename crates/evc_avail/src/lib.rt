#![tactic(auto)]

ghost use Rattle.std.specs.Prelude.{◌≡◌, ℕ, ◌+◌, ◌*◌, ◌^◌, ◌<◌, ◌≤◌, Bool, not, ◌&&◌, [], ◌∷◌, length, nat_lt, if◌then◌else◌, IfSome, Some, IfOk};
ghost use Rattle.evc_def.specs.Codes.{◌when◌, first_of};
ghost use Rattle.evc_def.specs.Refusals.{code_of};
ghost use Rattle.evc_def.specs.Tables.{is_coded, is_intra};
ghost use Rattle.evc_map.specs.Maps.{units_of, scup, scuh, w_scu};
ghost use Rattle.evc_avail.specs.Around.{left_of, first_column, last_column, right_of, above, first_row, below};
ghost use Rattle.evc_avail.specs.Flags.{is_inter_in, is_not_intra_in, avail_left_in, avail_right_in, avail_up_in, avail_of, of_picture, avail_checks, get_avail_inter, answer_of};
ghost use Rattle.evc_avail.specs.Slices.{of_slice, max_slice_num, get_avail_inter_slice};
ghost use Rattle.evc_avail.specs.Inner.{Seen, unit_of, in_first_column, in_last_column, is_beside_in, is_beside, avail_beside_in};

use evc_def::{
    AVAIL_LE, AVAIL_LO_LE, AVAIL_LO_RI, AVAIL_RI, AVAIL_RI_UP, AVAIL_UP, AVAIL_UP_LE, AVAIL_UP_RI,
    Block, EvcBlock, MCU, Refusal, Scu,
};

#[repr(C)]
#[derive(Clone, Copy, Default)]
pub struct EvcAvail {
    pub code: u32,
    pub avail: u16,
}

impl From<Result<u16, Refusal>> for EvcAvail {
    ghost from_gives = { λ avail answer. answer ≡ answer_of avail };

    fn from(avail: Result<u16, Refusal>) -> EvcAvail {
        match avail {
            Ok(avail) => EvcAvail { code: 0, avail },
            Err(refusal) => EvcAvail {
                code: refusal.number(),
                ..EvcAvail::default()
            },
        }
    }
}

// The part of a picture whose units count as available.
trait Region: Copy {
    // Which units do, by their words.
    ghost counts: { Self → ℕ → Bool };

    // Whether a unit is available, coded and not intra.
    fn is_inter(self, mcu: MCU) -> bool
        ensures { result ≡ (counts self mcu.0 && is_coded mcu.0 && not (is_intra mcu.0)) };

    fn is_not_intra(self, mcu: MCU) -> bool
        ensures { result ≡ (counts self mcu.0 && not (is_intra mcu.0)) };
}

// All of it.
#[derive(Clone, Copy)]
struct Picture;

impl Region for Picture {
    ghost counts = { λ picture. of_picture };

    fn is_inter(self, mcu: MCU) -> bool {
        mcu.IS_COD_NIF()
    }

    fn is_not_intra(self, mcu: MCU) -> bool {
        !mcu.GET_IF()
    }
}

// The slice of a number.
#[derive(Clone, Copy)]
struct Slice {
    slice_num: u32,
    ghost in_range: { slice_num ≤ max_slice_num },
}

const MAX_SLICE_NUM: u32 = 127;

impl Slice {
    // A unit's word with a slice number of 0 if the unit is one of the slice's, and of something else if not. The optimizer
    // then makes one test of slice, coded and intra.
    fn seen(self, mcu: MCU) -> MCU
        ensures { Seen (of_slice self.slice_num) mcu.0 result.0 }
    {
        MCU(mcu.0.wrapping_sub(self.slice_num))
    }
}

impl TryFrom<u32> for Slice {
    type Error = Refusal;

    ghost try_from_gives = { λ slice_num made. (code_of made ≡ first_of (13 when nat_lt max_slice_num slice_num ∷ [])) × IfOk made (λ slice. slice.slice_num ≡ slice_num) };

    fn try_from(slice_num: u32) -> Result<Slice, Refusal> {
        if slice_num > MAX_SLICE_NUM {
            return Err(Refusal::Slice);
        }
        Ok(Slice { slice_num })
    }
}

impl Region for Slice {
    ghost counts = { λ slice. of_slice slice.slice_num };

    fn is_inter(self, mcu: MCU) -> bool {
        let seen = self.seen(mcu);
        (seen.GET_SN() == 0) & seen.IS_COD_NIF()
    }

    fn is_not_intra(self, mcu: MCU) -> bool {
        let seen = self.seen(mcu);
        (seen.GET_SN() == 0) & !seen.GET_IF()
    }
}

// `bit` where it is set.
fn flag(set: bool, bit: u16) -> u16
    ensures { (result ≡ (if set then bit else 0)) × (result ≤ bit) }
{
    if set { bit } else { 0 }
}

// The units around a block, in its picture's words, and which of them count. A unit that the picture has is given by its index.
#[derive(Drop)]
struct Neighbours<'a, R> {
    block: Block,
    map_scu: &'a [u32],
    region: R,
    // The block's first unit, and how many units lead from it to the row below the block.
    first: Scu,
    down: Scu,
    ghost has_words: { units_of block.given.pic_w block.given.pic_h ≤ length map_scu.now },
    ghost first_is: { first.0 ≡ scup block.given },
    ghost down_is: { down.0 ≡ scuh block.given * w_scu block.given },
}

impl<'a, R: Region> Neighbours<'a, R> {
    fn new(block: Block, map_scu: &'a [u32], region: R) -> Neighbours<'a, R>
        requires { units_of block.given.pic_w block.given.pic_h ≤ length map_scu.now }
        ensures { (result.block ≡ block) × (result.map_scu.now ≡ map_scu.now) × (result.region ≡ region) }
    {
        Neighbours {
            block,
            map_scu,
            region,
            first: evc_map::first_unit(block),
            down: Scu(evc_map::scu(block.given.h).0 * evc_map::scu(block.given.pic_w).0),
        }
    }

    // The unit above the block's first. By `if`, here and in `left_of`, as evc_motion's `unit_before`.
    fn above(&self) -> Option<Scu>
        ensures { let b = self.now.block.given in
            result ≡ unit_of b (first_column b) (above b) }
    {
        if self.block.given.y == 0 {
            return None;
        }
        Some(Scu(self.first.0 - evc_map::scu(self.block.given.pic_w).0))
    }

    // The unit below the block, in its first column.
    #[tactic(auto, using(crate::proofs::Around::below_unit))]
    fn below(&self) -> Option<Scu>
        ensures { let b = self.now.block.given in
            result ≡ unit_of b (first_column b) (below b) }
    {
        self.block
            .placed()
            .down()
            .goes_on()
            .then_some(Scu(self.first.0 + self.down.0))
    }

    // The unit left of the block, in the row of one in its first column.
    fn left_of(&self, unit: Scu) -> Option<Scu>
        requires { in_first_column self.now.block.given unit }
        ensures { let b = self.now.block.given in
            (row : ℕ) → unit_of b (first_column b) row ≡ Some unit → result ≡ unit_of b (left_of b) row }
    {
        if self.block.given.x == 0 {
            return None;
        }
        Some(Scu(unit.0 - 1))
    }

    // The unit right of the block, in the row of one in its last column.
    fn right_of_last(&self, last: Scu) -> Option<Scu>
        requires { in_last_column self.now.block.given last }
        ensures { let b = self.now.block.given in
            (row : ℕ) → unit_of b (last_column b) row ≡ Some last → result ≡ unit_of b (right_of b) row }
    {
        self.block
            .placed()
            .across()
            .goes_on()
            .then_some(Scu(last.0 + 1))
    }

    // The same, of one in its first column.
    #[tactic(auto, using(crate::proofs::Around::last_unit))]
    fn right_of(&self, unit: Scu) -> Option<Scu>
        requires { in_first_column self.now.block.given unit }
        ensures { let b = self.now.block.given in
            (row : ℕ) → unit_of b (first_column b) row ≡ Some unit → result ≡ unit_of b (right_of b) row }
    {
        self.right_of_last(Scu(unit.0 + evc_map::scu(self.block.given.w).0 - 1))
    }

    // Left and right differ in what they call: one function over the side would be a match of these lines.
    #[tactic(auto, using(crate::proofs::Around::first_unit))]
    fn left(&self) -> Option<Scu>
        ensures { let b = self.now.block.given in
            result ≡ unit_of b (left_of b) (first_row b) }
    {
        self.left_of(self.first)
    }

    #[tactic(auto, using(crate::proofs::Around::first_unit))]
    fn right(&self) -> Option<Scu>
        ensures { let b = self.now.block.given in
            result ≡ unit_of b (right_of b) (first_row b) }
    {
        self.right_of(self.first)
    }

    fn lower_left(&self) -> Option<Scu>
        ensures { let b = self.now.block.given in
            result ≡ unit_of b (left_of b) (below b) }
    {
        self.left_of(self.below()?)
    }

    fn lower_right(&self) -> Option<Scu>
        ensures { let b = self.now.block.given in
            result ≡ unit_of b (right_of b) (below b) }
    {
        self.right_of(self.below()?)
    }

    // Whether a unit is available, coded and not intra. A unit outside the picture is not.
    #[tactic(auto, using(crate::proofs::Around::no_inter, crate::proofs::Around::inter_is))]
    fn is_inter(&self, unit: Option<Scu>) -> bool
        requires { IfSome unit (λ scup. scup.0 < units_of self.now.block.given.pic_w self.now.block.given.pic_h) }
        ensures { let n = self.now in
            (column row : ℕ) → unit ≡ unit_of n.block.given column row → result ≡ is_inter_in (R.counts n.region) n.block.given n.map_scu.now column row }
    {
        let Some(scup) = unit else {
            return false;
        };
        self.region.is_inter(evc_map::mcu_at(self.map_scu, scup))
    }

    #[tactic(auto, using(crate::proofs::Around::not_intra_is))]
    fn is_not_intra(&self, scup: Scu) -> bool
        requires { scup.0 < units_of self.now.block.given.pic_w self.now.block.given.pic_h }
        ensures { let n = self.now in
            (column row : ℕ) → Some scup ≡ unit_of n.block.given column row → result ≡ is_not_intra_in (R.counts n.region) n.block.given n.map_scu.now column row }
    {
        self.region
            .is_not_intra(evc_map::mcu_at(self.map_scu, scup))
    }

    // The flags of a unit beside the block's first row and of the one in its column below the block, which is looked up only where
    // the other's is set.
    fn avail_beside(&self, unit: Option<Scu>, lower: Option<Scu>, bit: u16, lower_bit: u16) -> u16
        requires places { is_beside self.now.block.given unit lower }
        requires bits { bit + lower_bit < 2 ^ 16 }
        ensures flags { let n = self.now in
            (column : ℕ) → is_beside_in n.block.given column unit lower → result ≡ avail_beside_in (R.counts n.region) n.block.given n.map_scu.now column bit lower_bit }
        ensures small { result ≤ bit + lower_bit }
    {
        if !self.is_inter(unit) {
            return 0;
        }
        bit + flag(self.is_inter(lower), lower_bit)
    }

    fn avail_left(&self) -> u16
        ensures { let n = self.now in
            (result ≡ avail_left_in (R.counts n.region) n.block.given n.map_scu.now) × (result ≤ 130) }
    {
        self.avail_beside(self.left(), self.lower_left(), AVAIL_LE, AVAIL_LO_LE)
    }

    fn avail_right(&self) -> u16
        ensures { let n = self.now in
            (result ≡ avail_right_in (R.counts n.region) n.block.given n.map_scu.now) × (result ≤ 264) }
    {
        self.avail_beside(self.right(), self.lower_right(), AVAIL_RI, AVAIL_LO_RI)
    }

    fn avail_up(&self) -> u16
        ensures { let n = self.now in
            (result ≡ avail_up_in (R.counts n.region) n.block.given n.map_scu.now) × (result ≤ 609) }
    {
        let Some(above) = self.above() else {
            return 0;
        };
        let scuw = evc_map::scu(self.block.given.w);
        let last = Scu(above.0 + scuw.0 - 1);
        let up = self.is_not_intra(above);
        let ri_up = self.is_not_intra(last);
        let up_le = self.is_inter(self.left_of(above));
        let up_ri = self.is_inter(self.right_of_last(last));
        flag(up, AVAIL_UP)
            + flag(ri_up, AVAIL_RI_UP)
            + flag(up_le, AVAIL_UP_LE)
            + flag(up_ri, AVAIL_UP_RI)
    }

    #[tactic(auto, unfolding(crate::specs::Flags::avail_of))]
    fn avail_inter(&self) -> u16
        ensures { let n = self.now in
            result ≡ avail_of (R.counts n.region) n.block.given n.map_scu.now }
    {
        let left = self.avail_left();
        let right = self.avail_right();
        left + self.avail_up() + right
    }
}

// The block, if its call is accepted.
fn checked(block: EvcBlock, map_scu: &[u32]) -> Result<Block, Refusal>
    ensures code { code_of result ≡ first_of (avail_checks block (length map_scu.now)) }
    ensures value { IfOk result (λ b. b.given ≡ block) }
{
    let b = Block::new(block)?;
    if evc_map::words_short(b.picture().sides(), map_scu.len()) {
        return Err(Refusal::Buffer);
    }
    Ok(b)
}

pub fn get_avail_inter(block: EvcBlock, map_scu: &[u32]) -> Result<u16, Refusal>
    ensures { answer_of result ≡ get_avail_inter block map_scu.now }
{
    let b = checked(block, map_scu)?;
    Ok(Neighbours::new(b, map_scu, Picture).avail_inter())
}

// ---- document 02, W5: flags in a slice

// The flags of a block of this slice: a unit of another slice sets none.
pub fn get_avail_inter_slice(
    block: EvcBlock,
    slice_num: u32,
    map_scu: &[u32],
) -> Result<u16, Refusal>
    ensures { answer_of result ≡ get_avail_inter_slice block slice_num map_scu.now }
{
    let b = checked(block, map_scu)?;
    let slice = Slice::try_from(slice_num)?;
    Ok(Neighbours::new(b, map_scu, slice).avail_inter())
}
