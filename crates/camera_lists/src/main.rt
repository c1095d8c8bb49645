//! Calls for the camera movement: for each a line with the number returned, the reading and the bits of both means. rust/README.md has the records.
#![tactic(auto)]

ghost use Rattle.std.specs.Prelude.{◌≤◌, vec_len};
ghost use Rattle.camera_lists.specs.declared.TheConstants.{MAX_WORDS};

use evc_camera::EvcCamera;
use evc_lists::{MAX_RECORDS, Record, number32};
use std::alloc::{AllocError, Global};
use std::io::Read;
use std::{fmt, io};

const MAX_WORDS: usize = 100;

const MAX_MAP_LEN: usize = 400;

#[derive(Drop)]
struct Call {
    pic_w: u32,
    pic_h: u32,
    words: Vec<u32>,
    map: Vec<i16>,
    ghost lent: { vec_len words ≤ MAX_WORDS },
}

// What a line prints.
#[derive(Clone, Copy)]
struct Answer(EvcCamera);

// The bits of a mean. Of a NaN, which no mean is, they cannot be read.
#[derive(Clone, Copy)]
struct Bits(f64);

// ---- a record

// The words of slice_lists are made so too, of numbers of another width: one function for both would take the width and the conversion, which is all of it.
fn map_of(alloc: Global, bytes: &[u8]) -> Result<Vec<i16>, AllocError> {
    let (numbers, _) = bytes.as_chunks::<2>();
    numbers
        .iter()
        .map(|number| evc_bytes::i16_at(number, 0))
        .collect(alloc)
}

// A state for each word lent and the numbers of the map follow the first four numbers.
impl Record for Call {
    fn read<R: Read>(alloc: Global, input: &mut R) -> io::Result<Option<Call>> {
        let Some(bytes) = evc_lists::read_array::<R, 8>(input)? else {
            return Ok(None)
        };
        let [pic_w, pic_h, words, numbers] = evc_lists::numbers::<4>(&bytes);
        let Some(states) = evc_lists::read_lent(alloc, input, words, MAX_WORDS)? else {
            return Ok(None)
        };
        let n = 2 * evc_lists::lent(numbers, MAX_MAP_LEN);
        let Some(map) = evc_lists::read_vec(alloc, input, n)? else {
            return Ok(None)
        };
        Ok(Some(Call {
            pic_w: number32(pic_w),
            pic_h: number32(pic_h),
            words: evc_lists::words_of(alloc, &states)?,
            map: map_of(alloc, &map)?,
        }))
    }
}

// ---- a call

impl Call {
    fn answer(&self) -> Answer {
        Answer(evc_camera::camera_motion(self.pic_w, self.pic_h, &self.map, &self.words).into())
    }
}

impl fmt::Display for Bits {
    fn fmt<W: fmt::Write>(&self, f: &mut fmt::Formatter<W>) -> fmt::Result {
        if self.0.is_nan() {
            return Ok(());
        }
        write!(f, "{:016x}", self.0.to_bits())
    }
}

impl fmt::Display for Answer {
    fn fmt<W: fmt::Write>(&self, f: &mut fmt::Formatter<W>) -> fmt::Result {
        write!(
            f,
            "{} {} {} {}",
            self.0.code,
            self.0.kind,
            Bits(self.0.x),
            Bits(self.0.y)
        )
    }
}

// Why each program of a list has such a `main`: `for_each_record` of evc_lists.
fn main(rt: HostRuntime) -> io::Result<()> {
    let alloc = rt.alloc();
    let mut out = io::writer(&rt);
    evc_lists::for_each_record(alloc, &mut rt.reader(), MAX_RECORDS, |_, call: Call| {
        evc_lists::print_line(&mut out, call.answer())
    })
}
