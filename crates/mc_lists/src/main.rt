//! Calls on one plane: for each a line with the number returned and a number for the block, or the number and the block whole, to be read. rust/README.md has
//! the records.
#![tactic(auto)]

ghost use Rattle.std.specs.Prelude.{◌≤◌, ◌∷◌, ◌++◌, Some, vec_len, IfOk};
ghost use Rattle.std.specs.Fmt.{decimal};
ghost use Rattle.evc_def.specs.Refusals.{code_of};
ghost use Rattle.evc_lists.specs.declared.TheConstants.{MAX_BLOCK_LEN};

use evc_def::{EvcMv, Refusal};
use evc_lists::{Arbitrary, MAX_BLOCK_LEN, MAX_RECORDS, RowForm, vector};
use evc_plane::PlaneType;
use std::alloc::{AllocError, Global};
use std::io::{Read, Write};
use std::{fmt, io};

// A plane, and how many calls on it follow.
#[derive(Clone, Copy)]
struct PlaneRecord {
    plane_type: PlaneType,
    pic_w: u16,
    pic_h: u16,
    plane_len: u16,
    seed: u16,
    limit: u16,
    is_padded: bool,
    calls: u16,
    form: RowForm,
}

#[derive(Clone, Copy)]
struct Call {
    ori_mv: EvcMv,
    gmv: EvcMv,
    w: u16,
    h: u16,
    block: Arbitrary,
}

// What is printed of a block that is not printed whole.
#[derive(Clone, Copy)]
struct Answer {
    done: Result<(), Refusal>,
    hash: u32,
}

impl From<[u8; 18]> for PlaneRecord {
    fn from(bytes: [u8; 18]) -> PlaneRecord {
        let [
            plane_type,
            pic_w,
            pic_h,
            plane_len,
            seed,
            limit,
            is_padded,
            calls,
            form,
        ] = evc_lists::numbers::<9>(&bytes);
        PlaneRecord {
            plane_type: evc_lists::plane_type(plane_type),
            pic_w,
            pic_h,
            plane_len,
            seed,
            limit,
            is_padded: is_padded == 1,
            calls,
            form: RowForm::from(form),
        }
    }
}

impl From<[u8; 16]> for Call {
    fn from(bytes: [u8; 16]) -> Call {
        let [ori_x, ori_y, x, y, w, h, len, seed] = evc_lists::numbers::<8>(&bytes);
        Call {
            ori_mv: vector(ori_x, ori_y),
            gmv: vector(x, y),
            w,
            h,
            block: Arbitrary { len, seed },
        }
    }
}

impl fmt::Display for Answer {
    ghost output = { λ a. Some (decimal (code_of a.done) ++ 32 ∷ decimal a.hash) };

    fn fmt<W: fmt::Write>(&self, f: &mut fmt::Formatter<W>) -> fmt::Result {
        write!(f, "{} {}", evc_def::code(self.done), self.hash)
    }
}

impl PlaneRecord {
    fn samples(&self, alloc: Global) -> Result<Vec<u16>, AllocError> {
        evc_lists::samples_below(
            alloc,
            usize::from(self.plane_len),
            u32::from(self.seed),
            self.limit,
        )
    }

    // A plane that is too short to be padded stays. `Pictures::pad` of evc_lists says the same of another record, and what both would share is this
    // call of evc_pad alone.
    fn pad(&self, plane: &mut [u16]) {
        if self.is_padded {
            let _ = evc_pad::pad(
                self.plane_type,
                u32::from(self.pic_w),
                u32::from(self.pic_h),
                plane,
            );
        }
    }

    fn predict(&self, plane: &[u16], call: &Call, pred: &mut [u16]) -> Result<(), Refusal> {
        evc_interp::evc_mc_plane(
            self.plane_type,
            u32::from(self.pic_w),
            u32::from(self.pic_h),
            call.ori_mv,
            call.gmv,
            u32::from(call.w),
            u32::from(call.h),
            plane,
            pred,
        )
    }

    fn run_call<W: Write>(
        &self,
        alloc: Global,
        out: &mut W,
        plane: &[u16],
        call: &Call,
    ) -> io::Result<()> {
        let mut pred = call.block(alloc)?;
        let done = self.predict(plane, call, &mut pred);
        match self.form {
            RowForm::Whole => call.print_block(out, done, &pred),
            RowForm::Number => {
                let hash = evc_lists::hash(&pred);
                evc_lists::print_line(out, Answer { done, hash })
            },
        }
    }

    // The plane, and the calls that follow it; at the end of the input there are no more.
    fn run<R: Read, W: Write>(&self, alloc: Global, input: &mut R, out: &mut W) -> io::Result<()> {
        let mut plane = self.samples(alloc)?;
        self.pad(&mut plane);
        evc_lists::for_each_record(
            alloc,
            input,
            usize::from(self.calls),
            |_, bytes: [u8; 16]| { self.run_call(alloc, out, &plane, &Call::from(bytes)) },
        )
    }
}

impl Call {
    // The block holds arbitrary samples first.
    fn block(&self, alloc: Global) -> Result<Vec<u16>, AllocError>
        ensures { IfOk result (λ pred. vec_len pred ≤ MAX_BLOCK_LEN) }
    {
        self.block.samples(alloc, MAX_BLOCK_LEN)
    }

    fn print_block<W: Write>(
        &self,
        out: &mut W,
        done: Result<(), Refusal>,
        pred: &[u16],
    ) -> io::Result<()> {
        evc_lists::print_line(out, evc_def::code(done))?;
        if self.w == 0 {
            return Ok(());
        }
        evc_lists::print_rows(out, pred, usize::from(self.w), RowForm::Whole)
    }
}

// Why each program of a list has such a `main`: `for_each_record` of evc_lists.
fn main(rt: HostRuntime) -> io::Result<()> {
    let alloc = rt.alloc();
    let mut out = io::writer(&rt);
    evc_lists::for_each_record(
        alloc,
        &mut rt.reader(),
        MAX_RECORDS,
        |input, bytes: [u8; 18]| PlaneRecord::from(bytes).run(alloc, input, &mut out),
    )
}
