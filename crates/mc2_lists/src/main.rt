//! Calls of block prediction: for each a line with the number returned, the reports of both lists and a number for each of the two blocks. rust/README.md has the records.
#![tactic(auto)]

ghost use Rattle.std.specs.Prelude.{◌≤◌, ◌∷◌, ◌++◌, Some, vec_len, IfOk};
ghost use Rattle.std.specs.Fmt.{decimal};
ghost use Rattle.evc_lists.specs.declared.TheConstants.{MAX_BLOCK_LEN};

use evc_clip::EvcMoved;
use evc_def::{EvcBlock, RefList};
use evc_lists::{Arbitrary, MAX_BLOCK_LEN, MAX_RECORDS, Pictures, Planes, number32, vector};
use evc_mc::{EvcList, EvcPredicted, RefPicList};
use std::alloc::{AllocError, Global};
use std::io::{Read, Write};
use std::{fmt, io};

// The pictures of both lists, and how many calls on them follow.
#[derive(Drop)]
struct PicturesRecord {
    pictures: Pictures,
    calls: u16,
}

#[derive(Clone, Copy)]
struct Call {
    x: u32,
    y: u32,
    w: u32,
    h: u32,
    list0: EvcList,
    list1: EvcList,
    block0: Arbitrary,
    block1: Arbitrary,
}

#[derive(Clone, Copy)]
struct Predicted(EvcPredicted);

// What a call gives: a line has a number for each block.
#[derive(Clone, Copy)]
struct Answer {
    predicted: Predicted,
    hash0: u32,
    hash1: u32,
}

impl From<[u8; 32]> for PicturesRecord {
    fn from(bytes: [u8; 32]) -> PicturesRecord {
        let [calls] = evc_lists::numbers::<1>(&bytes[2 * 15..]);
        PicturesRecord {
            pictures: Pictures::new(evc_lists::numbers(&bytes)),
            calls,
        }
    }
}

impl From<[u8; 32]> for Call {
    fn from(bytes: [u8; 32]) -> Call {
        let [
            x,
            y,
            w,
            h,
            used,
            x0,
            y0,
            poc0,
            x1,
            y1,
            poc1,
            len0,
            len1,
            seed0,
            seed1,
            _,
        ] = evc_lists::numbers::<16>(&bytes);
        Call {
            x: number32(x),
            y: number32(y),
            w: number32(w),
            h: number32(h),
            list0: EvcList {
                used: used % 2 == 1,
                mv: vector(x0, y0),
                poc: number32(poc0),
            },
            list1: EvcList {
                used: used / 2 == 1,
                mv: vector(x1, y1),
                poc: number32(poc1),
            },
            block0: Arbitrary {
                len: len0,
                seed: seed0,
            },
            block1: Arbitrary {
                len: len1,
                seed: seed1,
            },
        }
    }
}

// No `From` of evc_lists: with one, each of the programs would stand on all the crates of evc_mc.
fn ref_pic_list(list: EvcList, planes: &Planes) -> RefPicList<'_> {
    RefPicList {
        mv: list.mv,
        poc: list.poc,
        planes: evc_mc::Planes {
            y: &planes.y,
            u: &planes.u,
            v: &planes.v,
        },
    }
}

impl fmt::Display for Predicted {
    ghost output = { λ p. Some (decimal p.0.code ++ 32 ∷ decimal p.0.moved0.x ++ 32 ∷ decimal p.0.moved0.y
        ++ 32 ∷ decimal p.0.moved1.x ++ 32 ∷ decimal p.0.moved1.y) };

    fn fmt<W: fmt::Write>(&self, f: &mut fmt::Formatter<W>) -> fmt::Result {
        let EvcMoved { x: x0, y: y0 } = self.0.moved0;
        let EvcMoved { x: x1, y: y1 } = self.0.moved1;
        write!(f, "{} {x0} {y0} {x1} {y1}", self.0.code)
    }
}

impl fmt::Display for Answer {
    fn fmt<W: fmt::Write>(&self, f: &mut fmt::Formatter<W>) -> fmt::Result {
        write!(f, "{} {} {}", self.predicted, self.hash0, self.hash1)
    }
}

// A block holds arbitrary samples first.
fn pred(alloc: Global, block: Arbitrary) -> Result<Vec<u16>, AllocError>
    ensures { IfOk result (λ pred. vec_len pred ≤ MAX_BLOCK_LEN) }
{
    block.samples(alloc, MAX_BLOCK_LEN)
}

impl Call {
    fn block(&self, pictures: &Pictures) -> EvcBlock {
        EvcBlock {
            pic_w: pictures.pic_w,
            pic_h: pictures.pic_h,
            x: self.x,
            y: self.y,
            w: self.w,
            h: self.h,
        }
    }

    fn predict(
        &self,
        block: EvcBlock,
        ref0: &Planes,
        ref1: &Planes,
        pred0: &mut [u16],
        pred1: &mut [u16],
    ) -> Predicted {
        let l0 = ref_pic_list(self.list0, ref0);
        let l1 = ref_pic_list(self.list1, ref1);
        let list0 = self.list0.used.then_some(&l0);
        let list1 = self.list1.used.then_some(&l1);
        Predicted(evc_mc::evc_mc2(block, list0, list1, pred0, pred1).into())
    }

    fn answer(
        &self,
        alloc: Global,
        block: EvcBlock,
        ref0: &Planes,
        ref1: &Planes,
    ) -> Result<Answer, AllocError> {
        let mut pred0 = pred(alloc, self.block0)?;
        let mut pred1 = pred(alloc, self.block1)?;
        let predicted = self.predict(block, ref0, ref1, &mut pred0, &mut pred1);
        Ok(Answer {
            predicted,
            hash0: evc_lists::hash(&pred0),
            hash1: evc_lists::hash(&pred1),
        })
    }
}

impl PicturesRecord {
    // The pictures, and the calls that follow them; at the end of the input there are no more.
    fn run<R: Read, W: Write>(&self, alloc: Global, input: &mut R, out: &mut W) -> io::Result<()> {
        let ref0 = self.pictures.picture(alloc, RefList::List0)?;
        let ref1 = self.pictures.picture(alloc, RefList::List1)?;
        evc_lists::for_each_record(
            alloc,
            input,
            usize::from(self.calls),
            |_, bytes: [u8; 32]| {
                let call = Call::from(bytes);
                let answer = call.answer(alloc, call.block(&self.pictures), &ref0, &ref1)?;
                evc_lists::print_line(out, answer)
            },
        )
    }
}

// Why each program of a list has such a `main`: `for_each_record` of evc_lists.
fn main(rt: HostRuntime) -> io::Result<()> {
    let alloc = rt.alloc();
    let mut out = io::writer(&rt);
    evc_lists::for_each_record(
        alloc,
        &mut rt.reader(),
        MAX_RECORDS,
        |input, bytes: [u8; 32]| PicturesRecord::from(bytes).run(alloc, input, &mut out),
    )
}
