#![tactic(auto)]

ghost use Rattle.std.specs.Prelude.{◌≡◌, not, ◌&&◌, ◌+◌, ◌<◌, ◌^◌, leb, eqb, get_or, pos, ◌+ℤ◌, ◌-ℤ◌, ◌*ℤ◌, ◌≤ℤ◌};
ghost use Rattle.std.specs.Int.Signed.{shr_z};
ghost use Rattle.std.specs.Int.{w16, w32};
ghost use Rattle.std.proofs.Common.{SFits};
ghost use Rattle.evc_int.specs.Whole.{◌modulo◌, clip3};
ghost use Rattle.evc_def.specs.Blocks.{is_picture_side, is_block_side, bad_picture, bad_block};
ghost use Rattle.evc_def.specs.Tables.{tbl_cu_dim_offset, is_bit, is_coded, is_intra, slice_num};

pub mod accepted;
pub mod refusal;

pub use accepted::{Block, Picture, Placed, Sides, Span};
pub use refusal::{Refusal, code};

// ---- def.rs: numbers

pub const BIT_DEPTH: u16 = 10;

pub const MAX_SAMPLE_VAL: u16 = (1 << BIT_DEPTH) - 1;

pub const MAX_CU_LOG2: usize = 6;

pub const MIN_CU_LOG2: usize = 2;

pub const MAX_CU_SIZE: usize = 1 << MAX_CU_LOG2;

pub const MAX_CU_DIM: usize = 1 << (MAX_CU_LOG2 + MAX_CU_LOG2);

pub const PIC_PAD_SIZE_L: usize = MAX_CU_SIZE + 16;

pub const PIC_PAD_SIZE_C: usize = PIC_PAD_SIZE_L >> 1;

// Neighbouring block availability flag bits, and flags: numbers, as the calls take and return them.
pub const AVAIL_BIT_UP: u16 = 0;

pub const AVAIL_BIT_LE: u16 = 1;

pub const AVAIL_BIT_RI: u16 = 3;

pub const AVAIL_BIT_UP_LE: u16 = 5;

pub const AVAIL_BIT_UP_RI: u16 = 6;

pub const AVAIL_BIT_LO_LE: u16 = 7;

pub const AVAIL_BIT_LO_RI: u16 = 8;

pub const AVAIL_BIT_RI_UP: u16 = 9;

pub const AVAIL_UP: u16 = 1 << AVAIL_BIT_UP;

pub const AVAIL_LE: u16 = 1 << AVAIL_BIT_LE;

pub const AVAIL_RI: u16 = 1 << AVAIL_BIT_RI;

pub const AVAIL_UP_LE: u16 = 1 << AVAIL_BIT_UP_LE;

pub const AVAIL_UP_RI: u16 = 1 << AVAIL_BIT_UP_RI;

pub const AVAIL_LO_LE: u16 = 1 << AVAIL_BIT_LO_LE;

pub const AVAIL_LO_RI: u16 = 1 << AVAIL_BIT_LO_RI;

pub const AVAIL_RI_UP: u16 = 1 << AVAIL_BIT_RI_UP;

// Whether bit `bit` of the flags is set.
pub fn GET_AVAIL_FLAG(avail: u16, bit: u16) -> bool
    requires { bit < 16 }
    ensures { result ≡ is_bit bit avail }
{
    (avail >> bit) % 2 == 1
}

// A word of the SCU map: what the decoder noted of one unit of 4 by 4 samples.
#[derive(Clone, Copy)]
pub struct MCU(pub u32);

impl MCU {
    pub fn GET_SN(self) -> u32
        ensures { result ≡ slice_num self.0 }
    {
        self.0 % 128
    }

    // A function for each bit, under the Rust's name: one over the bit's place would say less where it is called.
    pub fn GET_COD(self) -> bool
        ensures { result ≡ is_coded self.0 }
    {
        (self.0 >> 31) % 2 == 1
    }

    pub fn GET_IF(self) -> bool
        ensures { result ≡ is_intra self.0 }
    {
        (self.0 >> 15) % 2 == 1
    }

    pub fn IS_COD_NIF(self) -> bool
        ensures { result ≡ is_coded self.0 && not (is_intra self.0) }
    {
        self.GET_COD() & !self.GET_IF()
    }
}

// ---- tbl.rs: a table. The filters of mc.rs are in evc_filter.

const tbl_cu_dim_offset: [usize; 3] = [0, MAX_CU_DIM, MAX_CU_DIM + (MAX_CU_DIM >> 2)];

// Where plane `c` (Y, U, V) begins in a lent block. By its number, as the Rust's table: an enum of the three would only be turned into
// these numbers.
pub fn cu_dim_offset(c: usize) -> usize
    requires { c < 3 }
    ensures { result ≡ get_or tbl_cu_dim_offset c 0 }
{
    tbl_cu_dim_offset[c]
}

// ---- places: whole samples, quarter samples and units of four samples are three types

// A place or a size in whole samples.
#[derive(Clone, Copy)]
pub struct Pel(pub i32);
// A position in quarter samples.
#[derive(Clone, Copy, PartialEq, Eq)]
pub struct Qpel(pub i32);
// A place in a reference picture, across and down: qpel_gmv_x and qpel_gmv_y of the Rust.
#[derive(Clone, Copy, PartialEq, Eq)]
pub struct QpelPlace {
    pub x: Qpel,
    pub y: Qpel,
}
// An index in units of four samples (SCU), or a count of them.
#[derive(Clone, Copy)]
pub struct Scu(pub usize);

impl Pel {
    pub fn new(n: u32) -> Pel
        requires { n < 2 ^ 31 }
        ensures { result.0 ≡ pos n }
    {
        Pel(n as i32)
    }

    pub fn qpel(self) -> Qpel
        requires { SFits w32 (pos 4 *ℤ self.0) }
        ensures { result.0 ≡ pos 4 *ℤ self.0 }
    {
        Qpel(4 * self.0)
    }

    // PEL2SCU: the unit that holds the sample.
    pub fn scu(self) -> Scu
        requires { pos 0 ≤ℤ self.0 }
        ensures { pos result.0 ≡ shr_z self.0 4 }
    {
        Scu((self.0 as u32 >> MIN_CU_LOG2) as usize)
    }
}

impl Scu {
    // Where a map has the unit; of a count, how many units it must have.
    pub fn index(self) -> usize
        ensures { result ≡ self.0 }
    {
        self.0
    }
}

impl Qpel {
    // The whole sample at or before the position, and the quarters from there on.
    pub fn pel(self) -> Pel
        ensures { result.0 ≡ shr_z self.0 4 }
    {
        Pel(self.0 >> 2)
    }

    pub fn phase(self) -> usize
        ensures { result ≡ self.0 modulo 4 }
    {
        (self.0 & 3) as usize
    }

    // The same of a chroma plane, which has half the sides: its samples are eight quarters apart. `PlaneType`, by which one function
    // could tell, is of evc_plane, above this crate.
    pub fn chroma_pel(self) -> Pel
        ensures { result.0 ≡ shr_z self.0 8 }
    {
        Pel(self.0 >> 3)
    }

    pub fn chroma_phase(self) -> usize
        ensures { result ≡ self.0 modulo 8 }
    {
        (self.0 & 7) as usize
    }

    pub fn moved(self, mv: i16) -> Qpel
        requires { SFits w32 (self.0 +ℤ mv) }
        ensures { result.0 ≡ self.0 +ℤ mv }
    {
        Qpel(self.0 + mv as i32)
    }

    // The component of the vector that leads from one position to another.
    pub fn mv_to(self, to: Qpel) -> i16
        requires { SFits w16 (to.0 -ℤ self.0) }
        ensures { result ≡ to.0 -ℤ self.0 }
    {
        (to.0 - self.0) as i16
    }

    // EVC_CLIP3. The library's `clamp` asks that min is at most max, which callers need not give here.
    pub fn clip3(self, min: Qpel, max: Qpel) -> Qpel
        ensures { result.0 ≡ clip3 min.0 max.0 self.0 }
    {
        if self.0 < min.0 {
            return min;
        }
        if self.0 > max.0 {
            return max;
        }
        self
    }
}

// A component as a call passes it.
impl From<i16> for Qpel {
    ghost from_gives = { λ z q. q.0 ≡ z };

    fn from(z: i16) -> Qpel {
        Qpel(z as i32)
    }
}

// ---- what a call takes

#[repr(C)]
#[derive(Clone, Copy, Default, PartialEq, Eq)]
pub struct EvcMv {
    pub x: i16,
    pub y: i16,
}

// A place as a call passes it.
impl From<EvcMv> for QpelPlace {
    ghost use Rattle.evc_def.specs.Places.{given_place};

    ghost from_gives = { λ gmv place. place ≡ given_place gmv };

    fn from(gmv: EvcMv) -> QpelPlace {
        QpelPlace {
            x: Qpel::from(gmv.x),
            y: Qpel::from(gmv.y),
        }
    }
}

// One of the two lists of reference pictures.
#[derive(Clone, Copy, PartialEq, Eq)]
pub enum RefList {
    List0,
    List1,
}

// By its number, lidx of the Rust.
impl TryFrom<u32> for RefList {
    type Error = Refusal;

    ghost use Rattle.evc_def.specs.Lists.{IsRefList};

    ghost try_from_gives = { IsRefList };

    fn try_from(lidx: u32) -> Result<RefList, Refusal> {
        match lidx {
            0 => Ok(RefList::List0),
            1 => Ok(RefList::List1),
            _ => Err(Refusal::List),
        }
    }
}

// A block of a picture, in luma samples.
#[repr(C)]
#[derive(Clone, Copy)]
pub struct EvcBlock {
    pub pic_w: u32,
    pub pic_h: u32,
    pub x: u32,
    pub y: u32,
    pub w: u32,
    pub h: u32,
}

const MAX_PIC_SIZE: u32 = 8128;

pub const MAX_POC: u32 = 32767;

fn is_picture_side(n: u32) -> bool
    ensures { result ≡ is_picture_side n }
{
    (4 <= n) & (n <= MAX_PIC_SIZE) & (n % 4 == 0)
}

// 4, 8, 16, 32 and 64 are the numbers from 4 to 64 with no more than one bit set. `is_power_of_two` asks for one bit: luma 4x4 across
// then takes 1.07 of the time.
pub fn is_block_side(n: u32) -> bool
    ensures { result ≡ is_block_side n }
{
    (4 <= n) & (n <= 64) & (u32::count_ones(n) <= 1)
}

// The sum is in 64 bits, where it cannot wrap. Of plain numbers, here and below: a `Span` holds that they passed this test.
fn is_inside(size: u32, place: u32, side: u32) -> bool
    ensures { result ≡ leb (place + side) size }
{
    place as u64 + side as u64 <= size as u64
}

// Whether a picture of that size goes on behind that side at that place. The sum is that of `is_inside`, so that it is formed once.
pub fn goes_on(size: u32, place: u32, side: u32) -> bool
    ensures { result ≡ not (eqb (place + side) size) }
{
    place as u64 + side as u64 != size as u64
}

pub fn bad_picture(pic_w: u32, pic_h: u32) -> bool
    ensures { result ≡ bad_picture pic_w pic_h }
{
    !(is_picture_side(pic_w) & is_picture_side(pic_h))
}

pub fn bad_block(b: EvcBlock) -> bool
    ensures { result ≡ bad_block b }
{
    // The places stand together, so that the optimizer makes one test of the two.
    !(is_block_side(b.w)
        & is_block_side(b.h)
        & is_inside(b.pic_w, b.x, b.w)
        & is_inside(b.pic_h, b.y, b.h)
        & ((b.x % 4 == 0) & (b.y % 4 == 0)))
}

// Whether no check refuses, by fewer tests: a picture that holds a block is not too small.
fn is_accepted(b: EvcBlock) -> bool
    ensures { result ≡ not (bad_picture b.pic_w b.pic_h) && not (bad_block b) }
{
    !bad_block(b)
        & (b.pic_w <= MAX_PIC_SIZE)
        & (b.pic_h <= MAX_PIC_SIZE)
        & ((b.pic_w % 4 == 0) & (b.pic_h % 4 == 0))
}
