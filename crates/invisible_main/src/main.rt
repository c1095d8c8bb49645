//! Document 02, W6: the counterexample through the calls, and its three mirror images. "a block 64 wide, x 0, mvx -257, vertical component 0, with columns 0 and 1 holding 0
//! and 1023, gives 0 in its last column, where the unclipped place would give 16." Of a picture the line next to one edge holds 1023, all others 0; the vector leads to the
//! limit past that edge and 1 to 4 quarters of a sample beyond. A line has the luma sample that comes to lie nearest to the picture: of the block, of its quarter there, whose
//! vector needs no clipping, and of the plane at the exact place; then the reports of clipping the block's vector, across and down (document 02, W2).
#![tactic(auto)]

use evc_clip::{EvcClipped, EvcMoved};
use evc_def::{EvcBlock, EvcMv};
use evc_mc::{PRED_LEN, Planes, RefPicList};
use evc_plane::PlaneType;
use std::{fmt, io};

// What a picture of 64 by 8 needs, and one of 8 by 64.
const WIDE_STRIDE: usize = 224;

const HIGH_STRIDE: usize = 176;

const LUMA_LEN: usize = 39424;

const CHROMA_LEN: usize = 10752;

const ORIGIN: usize = 80;

// What a lent block holds before the call, and still after a refusal; no line has it.
const OLD: u16 = 7;

// ---- one sample by each call

fn get(samples: &[u16], at: usize) -> u16 {
    samples.get(at).copied().unwrap_or(OLD)
}

// List 0 alone is in use. edges_main has such a call too, with two lists and a number for its answer: what they share is the call.
fn block(b: EvcBlock, mv: EvcMv, at: usize, luma: &[u16], chroma: &[u16]) -> u16 {
    let mut pred0 = [OLD; PRED_LEN];
    let mut pred1 = [OLD; PRED_LEN];
    let planes = Planes {
        y: luma,
        u: chroma,
        v: chroma,
    };
    let l0 = RefPicList { mv, poc: 0, planes };
    let _ = evc_mc::evc_mc2(b, Some(&l0), None, &mut pred0, &mut pred1);
    get(&pred0, at)
}

// The block lies at (0, 0), so the exact place is the vector itself.
fn plane(b: EvcBlock, mv: EvcMv, at: usize, luma: &[u16]) -> u16 {
    let mut pred = [OLD; PRED_LEN];
    let _ = evc_interp::evc_mc_plane(
        PlaneType::Y,
        b.pic_w,
        b.pic_h,
        mv,
        mv,
        b.w,
        b.h,
        luma,
        &mut pred,
    );
    get(&pred, at)
}

fn moved(b: EvcBlock, mv: EvcMv) -> EvcMoved {
    EvcClipped::from(evc_clip::mv_clip(b, mv)).moved
}

// ---- the four sides

// A block over the whole picture and one of its quarters, with the sample of each that is printed.
#[derive(Clone, Copy)]
struct Parts {
    whole: EvcBlock,
    whole_at: usize,
    quarter: EvcBlock,
    quarter_at: usize,
}

// The edge past which the vector leads.
#[derive(Clone, Copy)]
enum Side {
    Left,
    Right,
    Above,
    Below,
}

impl fmt::Display for Side {
    fn fmt<W: fmt::Write>(&self, f: &mut fmt::Formatter<W>) -> fmt::Result {
        f.write_str(match self {
            Side::Left => "left, mvx",
            Side::Right => "right, mvx",
            Side::Above => "above, mvy",
            Side::Below => "below, mvy",
        })
    }
}

// Wide and high name their fields: one function of both would take two sides and two places.
fn wide(x: u32, w: u32, h: u32) -> EvcBlock {
    EvcBlock {
        pic_w: 64,
        pic_h: 8,
        x,
        y: 0,
        w,
        h,
    }
}

fn high(y: u32, w: u32, h: u32) -> EvcBlock {
    EvcBlock {
        pic_w: 8,
        pic_h: 64,
        x: 0,
        y,
        w,
        h,
    }
}

impl Side {
    // The vectors, by the component that is not 0.
    fn components(self) -> [i16; 5] {
        match self {
            Side::Left | Side::Above => [-256, -257, -258, -259, -260],
            Side::Right | Side::Below => [256, 257, 258, 259, 260],
        }
    }

    fn vector(self, component: i16) -> EvcMv {
        match self {
            Side::Left | Side::Right => EvcMv { x: component, y: 0 },
            Side::Above | Side::Below => EvcMv { x: 0, y: component },
        }
    }

    fn parts(self) -> Parts {
        match self {
            // The last column: 63 of the block, 31 of its upper right quarter.
            Side::Left => Parts {
                whole: wide(0, 64, 8),
                whole_at: 63,
                quarter: wide(32, 32, 4),
                quarter_at: 31,
            },
            // The first column, of the block and of its upper left quarter.
            Side::Right => Parts {
                whole: wide(0, 64, 8),
                whole_at: 0,
                quarter: wide(0, 32, 4),
                quarter_at: 0,
            },
            // The last row: 63 of the block, 31 of its lower left quarter.
            Side::Above => Parts {
                whole: high(0, 8, 64),
                whole_at: 63 * 8,
                quarter: high(32, 4, 32),
                quarter_at: 31 * 4,
            },
            // The first row, of the block and of its upper left quarter.
            Side::Below => Parts {
                whole: high(0, 8, 64),
                whole_at: 0,
                quarter: high(0, 4, 32),
                quarter_at: 0,
            },
        }
    }

    // The stored column or row that holds 1023; all else holds 0.
    fn held_line(self) -> usize {
        match self {
            Side::Left | Side::Above => ORIGIN + 1,
            Side::Right | Side::Below => ORIGIN + 62,
        }
    }

    // The stored column of a sample of the wide picture, or the stored row of one of the high picture.
    fn line_of(self, i: usize) -> usize {
        match self {
            Side::Left | Side::Right => i % WIDE_STRIDE,
            Side::Above | Side::Below => i / HIGH_STRIDE,
        }
    }

    fn sample(self, i: usize) -> u16 {
        if self.line_of(i) == self.held_line() {
            1023
        } else {
            0
        }
    }

    // Padding goes over what is in the border.
    fn hold(self, luma: &mut [u16]) {
        for (i, sample) in luma.iter_mut().enumerate() {
            *sample = self.sample(i);
        }
        let b = self.parts().whole;
        let _ = evc_pad::pad(PlaneType::Y, b.pic_w, b.pic_h, luma);
    }

    fn line(self, rt: &impl Print, component: i16, luma: &[u16], chroma: &[u16]) -> io::Result<()> {
        let p = self.parts();
        let mv = self.vector(component);
        let whole = block(p.whole, mv, p.whole_at, luma, chroma);
        let quarter = block(p.quarter, mv, p.quarter_at, luma, chroma);
        let exact = plane(p.whole, mv, p.whole_at, luma);
        let m = moved(p.whole, mv);
        print!(rt; "{self} {component}: block {whole}, quarter {quarter}, ")?;
        println!(rt; "exact place {exact}, moved {} {}", m.x, m.y)
    }

    fn lines(self, rt: &impl Print, luma: &[u16], chroma: &[u16]) -> io::Result<()> {
        for component in self.components() {
            self.line(rt, component, luma, chroma)?;
        }
        Ok(())
    }
}

fn main(rt: HostRuntime) -> io::Result<()> {
    let mut luma = [0; LUMA_LEN];
    let chroma = [0; CHROMA_LEN]; // 0 in the border too, as padding leaves it
    for side in [Side::Left, Side::Right, Side::Above, Side::Below] {
        side.hold(&mut luma);
        side.lines(&rt, &luma, &chroma)?;
    }
    Ok(())
}
