//! Document 01, 'Edges to try': the lines that are not proved as statements, through every call that they concern. A call that is not named
//! on a line is not concerned.
#![tactic(auto)]

use evc_clip::Clipped;
use evc_def::{EvcBlock, EvcMv, Picture, Refusal};
use evc_direct::{DirectVectors, Pocs};
use evc_mc::{ListsMoved, PRED_LEN, RefPicList};
use evc_motion::EvcCandidates;
use evc_plane::PlaneType;
use std::alloc::{AllocError, Global};
use std::io;

// What a picture of 8128 by 4 needs, and one of 128 by 128 with it.
const LUMA_LEN: usize = 8288 * 164;

const CHROMA_LEN: usize = 4160 * 82;

const UNITS: usize = 2032;

const MOTION_LEN: usize = 8128;

// ---- what each call gives

// Each call is another, with arguments of its own: what they share is the block.
fn flags(b: EvcBlock) -> Result<u16, Refusal> {
    evc_avail::get_avail_inter(b, &[0; UNITS])
}

fn candidates(b: EvcBlock) -> Result<EvcCandidates, Refusal> {
    let map = [0; MOTION_LEN];
    evc_motion::get_motion(b, 0, 0, &map, Some(&map), EvcCandidates::default())
}

fn direct(b: EvcBlock, poc: u32) -> Result<DirectVectors, Refusal> {
    let pocs = Pocs {
        poc,
        poc0: 0,
        poc1: 2,
        list_poc0: 1,
    };
    evc_direct::get_mv_dir(b, pocs, Some(&[0; MOTION_LEN]))
}

fn clipping(b: EvcBlock) -> Result<Clipped, Refusal> {
    evc_clip::mv_clip(b, EvcMv::default())
}

fn padding(t: PlaneType, b: EvcBlock, plane: &mut [u16]) -> Result<(), Refusal> {
    evc_pad::pad(t, b.pic_w, b.pic_h, plane)
}

fn one_plane(t: PlaneType, b: EvcBlock, w: u32, h: u32, plane: &[u16]) -> Result<(), Refusal> {
    let mut pred = [0; PRED_LEN];
    let mv = EvcMv::default();
    evc_interp::evc_mc_plane(t, b.pic_w, b.pic_h, mv, mv, w, h, plane, &mut pred)
}

// From two lists with the same planes. invisible_main has such a call too, with one list in use and a sample for its answer: what they share is the call.
fn block(b: EvcBlock, poc: u32, luma: &[u16], chroma: &[u16]) -> Result<ListsMoved, Refusal> {
    let mut pred0 = [0; PRED_LEN];
    let mut pred1 = [0; PRED_LEN];
    let planes = evc_mc::Planes {
        y: luma,
        u: chroma,
        v: chroma,
    };
    let l0 = RefPicList {
        mv: EvcMv::default(),
        poc: 0,
        planes,
    };
    let l1 = RefPicList { poc, ..l0 };
    evc_mc::evc_mc2(b, Some(&l0), Some(&l1), &mut pred0, &mut pred1)
}

// ---- what is printed

// The number that a call returns.
fn number<T: Drop>(answer: Result<T, Refusal>) -> u32 {
    evc_def::code(answer.map(|_| ()))
}

fn print_vectors(rt: &impl Print, b: EvcBlock) -> io::Result<()> {
    print!(rt;
        " flags {}, candidates {}, direct vectors {}, clipping {}",
        number(flags(b)),
        number(candidates(b)),
        number(direct(b, 0)),
        number(clipping(b))
    )
}

// The planes of a picture.
#[derive(Drop)]
struct Planes {
    luma: Vec<u16>,
    chroma: Vec<u16>,
}

impl Planes {
    fn new(alloc: Global) -> Result<Planes, AllocError> {
        Ok(Planes {
            luma: vec![in alloc; 0; LUMA_LEN]?,
            chroma: vec![in alloc; 0; CHROMA_LEN]?,
        })
    }

    fn print_padding(&mut self, rt: &impl Print, b: EvcBlock) -> io::Result<()> {
        let luma = number(padding(PlaneType::Y, b, &mut self.luma));
        let chroma = number(padding(PlaneType::UV, b, &mut self.chroma));
        print!(rt; " padding luma {luma}, padding chroma {chroma}")
    }

    fn print_prediction(&self, rt: &impl Print, b: EvcBlock) -> io::Result<()> {
        let luma = number(one_plane(PlaneType::Y, b, b.w, b.h, &self.luma));
        let chroma = number(one_plane(PlaneType::UV, b, b.w / 2, b.h / 2, &self.chroma));
        let block = number(block(b, 0, &self.luma, &self.chroma));
        println!(rt; ", luma plane {luma}, chroma plane {chroma}, block {block}")
    }
}

// ---- the lines

fn square(pic_w: u32, pic_h: u32, side: u32) -> EvcBlock {
    EvcBlock {
        pic_w,
        pic_h,
        x: 0,
        y: 0,
        w: side,
        h: side,
    }
}

fn print_stride(rt: &impl Print, name: &str, t: PlaneType, pic: Picture) -> io::Result<()> {
    let c = evc_plane::plane_config(t, pic);
    println!(rt; "{name} width {}: stride {}", c.width, c.stride)
}

#[tactic(auto, unfolding(evc_def::specs::Blocks::bad_picture))]
fn print_strides(rt: &impl Print, name: &str, t: PlaneType) -> io::Result<()> {
    print_stride(rt, name, t, Picture { w: 4, h: 4 })?;
    print_stride(rt, name, t, Picture { w: 8128, h: 4 })
}

impl Planes {
    fn width_line(&mut self, rt: &impl Print, pic_w: u32) -> io::Result<()> {
        let b = square(pic_w, 4, 4);
        print!(rt; "W {pic_w}:")?;
        print_vectors(rt, b)?;
        print!(rt; ",")?;
        self.print_padding(rt, b)?;
        self.print_prediction(rt, b)
    }

    fn side_line(&self, rt: &impl Print, side: u32) -> io::Result<()> {
        let b = square(128, 128, side);
        print!(rt; "side {side}:")?;
        print_vectors(rt, b)?;
        self.print_prediction(rt, b)
    }

    fn count_line(&self, rt: &impl Print, poc: u32) -> io::Result<()> {
        let b = square(128, 128, 8);
        let block = number(block(b, poc, &self.luma, &self.chroma));
        println!(rt;
            "count {poc}: direct vectors {}, block {block}",
            number(direct(b, poc))
        )
    }

    // Every sample of the planes is this one.
    fn sample_line(&mut self, rt: &impl Print, sample: u16) -> io::Result<()> {
        let b = square(128, 128, 8);
        self.luma.fill(sample);
        self.chroma.fill(sample);
        print!(rt; "sample {sample}:")?;
        self.print_padding(rt, b)?;
        self.print_prediction(rt, b)
    }
}

fn lines(rt: &impl Print, planes: &mut Planes) -> io::Result<()> {
    for pic_w in [8128, 8132] {
        planes.width_line(rt, pic_w)?;
    }
    for side in [64, 12, 128] {
        planes.side_line(rt, side)?;
    }
    for poc in [32767, 32768] {
        planes.count_line(rt, poc)?;
    }
    for sample in [1023, 1024] {
        planes.sample_line(rt, sample)?;
    }
    Ok(())
}

fn main(rt: HostRuntime) -> io::Result<()> {
    print_strides(&rt, "luma", PlaneType::Y)?;
    print_strides(&rt, "chroma", PlaneType::UV)?;
    let mut planes = Planes::new(rt.alloc())?;
    lines(&rt, &mut planes)
}
