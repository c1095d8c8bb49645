//! Pictures and blocks that the checks accept.

ghost use Rattle.std.specs.Prelude.{◌≡◌, ◌≤◌, false};
ghost use Rattle.evc_def.specs.Blocks.{bad_picture, Allowed};
ghost use Rattle.evc_def.specs.Codes.{first_of, block_checks};

use super::{EvcBlock, Refusal};

// Sides no longer than a picture's, of a picture that need not be accepted.
#[derive(Clone, Copy)]
pub struct Sides {
    pub w: u32,
    pub h: u32,
    pub ghost width: { w ≤ 8128 },
    pub ghost height: { h ≤ 8128 },
}

// The sides of a picture.
#[derive(Clone, Copy)]
pub struct Picture {
    pub w: u32,
    pub h: u32,
    pub ghost accepted: { bad_picture w h ≡ false },
    pub ghost width: { w ≤ 8128 },
    pub ghost height: { h ≤ 8128 },
}

impl Picture {
    ghost use Rattle.std.specs.Prelude.{IfOk, [], ◌∷◌};
    ghost use Rattle.evc_def.specs.Codes.{first_of, picture_checks};
    ghost use Rattle.evc_def.specs.Refusals.{code_of};

    // Calls take the sides as numbers, and so do the functions that do their work: this is their first check.
    pub fn new(w: u32, h: u32) -> Result<Picture, Refusal>
        ensures code { code_of result ≡ first_of (picture_checks w h) }
        ensures value { IfOk result (λ p. (p.w ≡ w) × (p.h ≡ h)) }
    {
        if super::bad_picture(w, h) {
            return Err(Refusal::Picture);
        }
        Ok(Picture { w, h })
    }

    pub fn sides(self) -> Sides
        ensures { (result.w ≡ self.w) × (result.h ≡ self.h) }
    {
        Sides {
            w: self.w,
            h: self.h,
        }
    }
}

// A block in one direction: its side at a place in a picture of that size.
#[derive(Clone, Copy)]
pub struct Span {
    pub size: u32,
    pub place: u32,
    pub side: u32,
    pub ghost allowed: { Allowed size place side },
}

impl Span {
    ghost use Rattle.std.specs.Prelude.{not, eqb, ◌+◌};

    pub fn goes_on(self) -> bool
        ensures { result ≡ not (eqb (self.place + self.side) self.size) }
    {
        super::goes_on(self.size, self.place, self.side)
    }
}

// A block that lies in its picture, of sides that need not be a block's.
#[derive(Clone, Copy)]
pub struct Placed {
    pub given: EvcBlock,
    pub ghost across: { Allowed given.pic_w given.x given.w },
    pub ghost down: { Allowed given.pic_h given.y given.h },
}

impl Placed {
    // Across and down each name their fields: one method of both would be a match of these two.
    pub fn across(self) -> Span
        ensures { (result.size ≡ self.given.pic_w) × (result.place ≡ self.given.x) × (result.side ≡ self.given.w) }
    {
        Span {
            size: self.given.pic_w,
            place: self.given.x,
            side: self.given.w,
        }
    }

    pub fn down(self) -> Span
        ensures { (result.size ≡ self.given.pic_h) × (result.place ≡ self.given.y) × (result.side ≡ self.given.h) }
    {
        Span {
            size: self.given.pic_h,
            place: self.given.y,
            side: self.given.h,
        }
    }
}

// A block of a picture.
#[derive(Clone, Copy)]
pub struct Block {
    pub given: EvcBlock,
    pub ghost accepted: { bad_picture given.pic_w given.pic_h ≡ false },
    pub ghost checked: { first_of (block_checks given) ≡ 0 },
    pub ghost across: { Allowed given.pic_w given.x given.w },
    pub ghost down: { Allowed given.pic_h given.y given.h },
}

impl Block {
    ghost use Rattle.std.specs.Prelude.{IfOk};
    ghost use Rattle.evc_def.specs.Codes.{first_of, block_checks};
    ghost use Rattle.evc_def.specs.Refusals.{code_of};

    pub fn new(given: EvcBlock) -> Result<Block, Refusal>
        ensures code { code_of result ≡ first_of (block_checks given) }
        ensures value { IfOk result (λ b. b.given ≡ given) }
    {
        if super::is_accepted(given) {
            return Ok(Block { given });
        }
        if super::bad_picture(given.pic_w, given.pic_h) {
            return Err(Refusal::Picture);
        }
        Err(Refusal::Block)
    }

    pub fn picture(self) -> Picture
        ensures { (result.w ≡ self.given.pic_w) × (result.h ≡ self.given.pic_h) }
    {
        Picture {
            w: self.given.pic_w,
            h: self.given.pic_h,
        }
    }

    pub fn placed(self) -> Placed
        ensures { result.given ≡ self.given }
    {
        Placed { given: self.given }
    }
}
