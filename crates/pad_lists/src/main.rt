//! Planes to pad: for each the number returned, and its rows afterwards, a line each: a number, or the samples, to be read. rust/README.md has the records.
#![tactic(auto)]

ghost use Rattle.std.specs.Prelude.{◌≡◌, vec_len, IfOk};

use evc_def::Refusal;
use evc_lists::{MAX_RECORDS, RowForm};
use evc_plane::PlaneType;
use std::alloc::{AllocError, Global};
use std::io;
use std::io::Write;

// A plane to pad: its picture, how many samples it has, and how these are made.
#[derive(Clone, Copy)]
struct Call {
    plane_type: PlaneType,
    pic_w: u16,
    pic_h: u16,
    plane_len: u16,
    seed: u16,
    limit: u16,
    // where the picture's samples begin, how far apart its rows are, and its sides
    first: u16,
    stride: u16,
    width: u16,
    height: u16,
    form: RowForm,
}

impl From<[u8; 22]> for Call {
    fn from(bytes: [u8; 22]) -> Call {
        let [
            plane_type,
            pic_w,
            pic_h,
            plane_len,
            seed,
            limit,
            first,
            stride,
            width,
            height,
            form,
        ] = evc_lists::numbers::<11>(&bytes);
        Call {
            plane_type: evc_lists::plane_type(plane_type),
            pic_w,
            pic_h,
            plane_len,
            seed,
            limit,
            first,
            stride,
            width,
            height,
            form: RowForm::from(form),
        }
    }
}

impl Call {
    // Each row of the picture, if the plane has all of it. Rows may overlap, so that they are no chunks, and the stride may be 0, which is no step.
    fn reduce_picture(&self, plane: &mut [u16]) {
        for y in 0..self.height {
            let at = usize::from(self.first) + usize::from(y) * usize::from(self.stride);
            if let Some(row) = plane.get_mut(at..at + usize::from(self.width)) {
                evc_lists::reduce(row, self.limit);
            }
        }
    }

    // Arbitrary samples; the picture's are below the limit.
    fn plane(&self, alloc: Global) -> Result<Vec<u16>, AllocError>
        ensures { IfOk result (λ plane. vec_len plane ≡ self.now.plane_len) }
    {
        let n = usize::from(self.plane_len);
        let mut plane = evc_lists::samples(alloc, n, u32::from(self.seed))?;
        self.reduce_picture(&mut plane);
        Ok(plane)
    }

    fn pad(&self, plane: &mut [u16]) -> Result<(), Refusal> {
        evc_pad::pad(
            self.plane_type,
            u32::from(self.pic_w),
            u32::from(self.pic_h),
            plane,
        )
    }

    fn run<W: Write>(&self, alloc: Global, out: &mut W) -> io::Result<()> {
        let mut plane = self.plane(alloc)?;
        evc_lists::print_line(out, evc_def::code(self.pad(&mut plane)))?;
        if self.stride == 0 {
            return Ok(());
        }
        evc_lists::print_rows(out, &plane, usize::from(self.stride), self.form)
    }
}

// Why each program of a list has such a `main`: `for_each_record` of evc_lists.
fn main(rt: HostRuntime) -> io::Result<()> {
    let alloc = rt.alloc();
    let mut out = io::writer(&rt);
    evc_lists::for_each_record(alloc, &mut rt.reader(), MAX_RECORDS, |_, bytes: [u8; 22]| {
        Call::from(bytes).run(alloc, &mut out)
    })
}
