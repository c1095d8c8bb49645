//! Calls for the flags in slices: for each a line with the number returned and the flags. rust/README.md has the records.
#![tactic(auto)]

use evc_def::EvcBlock;
use evc_lists::{Flags, MAX_RECORDS, number32};
use std::alloc::{AllocError, Global};
use std::io;

const MAX_WORDS: usize = 16;

// Where the words of a record begin, four bytes each.
const FIRST_WORD: usize = 16;

#[derive(Drop)]
struct Call {
    block: EvcBlock,
    slice_num: u32,
    words: Vec<u32>,
}

// The map of camera_lists is made so too, of numbers of another width: one function for both would take the width and the conversion, which is all of it.
fn words_of(alloc: Global, bytes: &[u8]) -> Result<Vec<u32>, AllocError> {
    let (words, _) = bytes.as_chunks::<4>();
    words
        .iter()
        .map(|word| u32::from_le_bytes(*word))
        .collect(alloc)
}

impl Call {
    fn new(alloc: Global, bytes: &[u8; 80]) -> Result<Call, AllocError> {
        let [slice_num, asked] = evc_lists::numbers::<2>(&bytes[2 * 6..]);
        let n = evc_lists::lent(asked, MAX_WORDS);
        Ok(Call {
            block: evc_lists::block(evc_lists::numbers(bytes)),
            slice_num: number32(slice_num),
            words: words_of(alloc, &bytes[FIRST_WORD..FIRST_WORD + 4 * n])?,
        })
    }

    fn answer(&self) -> Flags {
        Flags(evc_avail::get_avail_inter_slice(self.block, self.slice_num, &self.words))
    }
}

// Why each program of a list has such a `main`: `for_each_record` of evc_lists.
fn main(rt: HostRuntime) -> io::Result<()> {
    let alloc = rt.alloc();
    let mut out = io::writer(&rt);
    evc_lists::for_each_record(alloc, &mut rt.reader(), MAX_RECORDS, |_, bytes: [u8; 80]| {
        evc_lists::print_line(&mut out, Call::new(alloc, &bytes)?.answer())
    })
}
