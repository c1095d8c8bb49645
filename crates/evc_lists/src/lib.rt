//! What the programs that replay lists share: a list's records and their numbers, arbitrary samples, the pictures of two lists, and what is printed.
//! rust/README.md has the records.
#![tactic(auto)]

ghost use Rattle.std.specs.Prelude.{◌≡◌, ◌==◌, ◌+◌, ◌*◌, ◌<◌, ◌≤◌, ℕ, List, [], ◌∷◌, ◌++◌, min, get_or, set, take, length, map, vec_len};
ghost use Rattle.std.specs.Prelude.{Some, IfOk, IfSome, OnOk, IsTrue};
ghost use Rattle.std.specs.Io.KnownBytes.{Appends, Consumes};
ghost use Rattle.evc_lists.specs.Records.{number, number32};
ghost use Rattle.evc_lists.specs.Units.{word_of};
ghost use Rattle.evc_lists.specs.Arbitrary.{following, scattered, below};
ghost use Rattle.evc_lists.specs.Planes.{type_of, samples_of, set_sample_of, is_in, planes_of, pictures_of, padded_plane, finished, plane_of};
ghost use Rattle.evc_lists.specs.Printed.{hash, others, spaced, row_line, row_form, rows_text, flags_text};

use evc_def::{EvcBlock, EvcMv, RefList, Refusal};
use evc_plane::PlaneType;
use std::alloc::{AllocError, Global};
use std::fmt::Display;
use std::io::{ErrorKind, Read, Write};
use std::{array, fmt, io};

// ---- the records of a list

// A proved loop has to end, and nothing says that the input does: more records than any list has.
pub const MAX_RECORDS: usize = 65536;

// What stands in a list reads itself, from the bytes that come next; None where the input has no more.
pub trait Record: Drop {
    fn read<R: Read>(alloc: Global, input: &mut R) -> io::Result<Option<Self>>
        ensures { IfOk result (λ read. IfSome read (λ _. (bytes : List ℕ) × Consumes (R.remaining input.old) (R.remaining input.new) bytes)) };
}

// Bytes of a number that is known.
impl<const N: usize> Record for [u8; N] {
    fn read<R: Read>(_alloc: Global, input: &mut R) -> io::Result<Option<[u8; N]>> {
        read_array(input)
    }
}

// Runs the next records, `most` of them or as many as there are. A record's step may read what follows it: how far the input has got
// is up to the steps, of which the bound says only that they may be called. The clause needs the name F, which an `impl FnMut` has not.
// Each program's `main` is this call over the runtime's reader and writer: one function of them all would be generic over the runtime, and each
// `main` would call it with the same closure.
pub fn for_each_record<R: Read, T: Record, F: FnMut(&mut R, T) -> io::Result<()>>(
    alloc: Global,
    input: &mut R,
    most: usize,
    mut run: F,
) -> io::Result<()>
    requires { F.IsAlwaysCallable run }
    ensures { most ≡ 0 → (input.new ≡ input.old) × (result ≡ Ok tt) }
{
    for _ in 0..most {
        let Some(record) = T::read(alloc, input)? else {
            break
        };
        run(input, record)?;
    }
    Ok(())
}

// Fills the bytes from the input; false where it has no more. The bytes are lent, so that an Option would have nothing to hold.
pub fn read<R: Read>(input: &mut R, bytes: &mut [u8]) -> io::Result<bool>
    ensures { IfOk result (λ more. IsTrue more → Consumes (R.remaining input.old) (R.remaining input.new) bytes.new) }
{
    match input.read_exact(bytes) {
        Ok(()) => Ok(true),
        Err(e) if e.kind() == ErrorKind::UnexpectedEof => Ok(false),
        Err(e) => Err(e),
    }
}

// The next N bytes of the input; None where it has no more.
pub fn read_array<R: Read, const N: usize>(input: &mut R) -> io::Result<Option<[u8; N]>>
    ensures { IfOk result (λ read. IfSome read (Consumes (R.remaining input.old) (R.remaining input.new))) }
{
    let mut bytes = [0u8; N];
    Ok(read(input, &mut bytes)?.then_some(bytes))
}

// The next n bytes.
pub fn read_vec<R: Read>(alloc: Global, input: &mut R, n: usize) -> io::Result<Option<Vec<u8>>>
    ensures length { IfOk result (λ read. IfSome read (λ bytes. vec_len bytes ≡ n)) }
    ensures taken { IfOk result (λ read. IfSome read (λ bytes. Consumes (R.remaining input.old) (R.remaining input.new) bytes.items)) }
{
    let mut bytes = vec![in alloc; 0u8; n]?;
    Ok(read(input, &mut bytes)?.then_some(bytes))
}

// As many bytes as a record asks for, but no more than `most`.
pub fn read_lent<R: Read>(
    alloc: Global,
    input: &mut R,
    asked: u16,
    most: usize,
) -> io::Result<Option<Vec<u8>>>
    ensures length { IfOk result (λ read. IfSome read (λ bytes. vec_len bytes ≡ min asked most)) }
    ensures taken { IfOk result (λ read. IfSome read (λ bytes. Consumes (R.remaining input.old) (R.remaining input.new) bytes.items)) }
{
    read_vec(alloc, input, lent(asked, most))
}

// ---- a record: numbers of two bytes

fn number(bytes: &[u8], k: usize) -> u16
    requires { 2 * k + 2 ≤ length bytes.now }
    ensures { result ≡ number bytes.now k }
{
    evc_bytes::u16_at(bytes, 2 * k)
}

// The first N numbers, two bytes each.
pub fn numbers<const N: usize>(bytes: &[u8]) -> [u16; N]
    requires { 2 * N ≤ length bytes.now }
    ensures { (k : ℕ) → k < N → get_or result k 0 ≡ number bytes.now k }
{
    array::from_fn(
        |k|
            requires { 2 * k + 2 ≤ length bytes.now }
        { number(bytes, k) },
    )
}

// The numbers from 65,280 on stand for those just below 2^32, so that two bytes reach both ends of a u32.
pub fn number32(n: u16) -> u32
    ensures { result ≡ number32 n }
{
    let wide = u32::from(n);
    if wide < 0xff00 {
        wide
    } else {
        wide + 0xffff0000
    }
}

// The six numbers of a block.
pub fn block([pic_w, pic_h, x, y, w, h]: [u16; 6]) -> EvcBlock {
    EvcBlock {
        pic_w: number32(pic_w),
        pic_h: number32(pic_h),
        x: number32(x),
        y: number32(y),
        w: number32(w),
        h: number32(h),
    }
}

// Both components of a vector.
pub fn vector(x: u16, y: u16) -> EvcMv {
    EvcMv {
        x: x.cast_signed(),
        y: y.cast_signed(),
    }
}

// 1 stands for chroma.
pub fn plane_type(n: u16) -> PlaneType {
    match n {
        1 => PlaneType::UV,
        _ => PlaneType::Y,
    }
}

// A length that a record asks for, at most as long as what there is to lend.
pub fn lent(asked: u16, most: usize) -> usize
    ensures { result ≡ min asked most }
{
    usize::from(asked).min(most)
}

// ---- units

// Unit words by state: bit 0 coded, bit 1 intra, bit 2 every bit of the word that no flag looks at.
const WORDS: [u32; 8] = [
    0, 0x80000000, 0x00008000, 0x80008000, 0x7fff7fff, 0xffff7fff, 0x7fffffff, 0xffffffff,
];

fn word_of(state: u8) -> u32
    ensures { result ≡ word_of state }
{
    WORDS[usize::from(state % 8)]
}

// By index: of what a zip over `iter_mut` wrote, a proof knows the length alone.
pub fn fill_words(words: &mut [u32], states: &[u8])
    requires { length words.old ≤ length states.now }
    ensures { words.new ≡ map word_of (take (length words.old) states.now) }
{
    for i in 0..words.len() {
        words[i] = word_of(states[i]);
    }
}

pub fn words_of(alloc: Global, states: &[u8]) -> Result<Vec<u32>, AllocError>
    ensures { IfOk result (λ words. words.items ≡ map word_of states.now) }
{
    let mut words = vec![in alloc; 0; states.len()]?;
    fill_words(&mut words, states);
    Ok(words)
}

// ---- arbitrary samples

// A linear congruential sequence, so that a record need not hold its samples.
fn following(z: u32) -> u32
    ensures { result ≡ following z }
{
    ((u64::from(z) * 1103515245 + 12345) % 0x80000000) as u32
}

pub fn scatter(samples: &mut [u16], seed: u32)
    ensures { samples.new ≡ scattered seed (length samples.old) }
{
    let mut z = seed;
    for sample in samples.iter_mut() {
        z = following(z);
        *sample = (z / 0x8000) as u16;
    }
}

pub fn samples(alloc: Global, n: usize, seed: u32) -> Result<Vec<u16>, AllocError>
    ensures length { IfOk result (λ samples. vec_len samples ≡ n) }
    ensures value { IfOk result (λ samples. samples.items ≡ scattered seed n) }
{
    let mut samples = vec![in alloc; 0; n]?;
    scatter(&mut samples, seed);
    Ok(samples)
}

// Below the limit, if there is one.
pub fn reduce(samples: &mut [u16], limit: u16)
    ensures { samples.new ≡ map (below limit) samples.old }
{
    for sample in samples.iter_mut() {
        *sample = sample.checked_rem(limit).unwrap_or(*sample);
    }
}

pub fn samples_below(alloc: Global, n: usize, seed: u32, limit: u16) -> Result<Vec<u16>, AllocError>
    ensures length { IfOk result (λ samples. vec_len samples ≡ n) }
    ensures value { IfOk result (λ samples. samples.items ≡ map (below limit) (scattered seed n)) }
{
    let mut samples = samples(alloc, n, seed)?;
    reduce(&mut samples, limit);
    Ok(samples)
}

// Most samples of a block that are lent.
pub const MAX_BLOCK_LEN: usize = 8192;

// Arbitrary samples that a record asks for.
#[derive(Clone, Copy)]
pub struct Arbitrary {
    pub len: u16,
    pub seed: u16,
}

impl Arbitrary {
    // No more of them than `most`.
    pub fn samples(self, alloc: Global, most: usize) -> Result<Vec<u16>, AllocError>
        ensures length { IfOk result (λ samples. vec_len samples ≡ min self.len most) }
        ensures value { IfOk result (λ samples. samples.items ≡ scattered self.seed (min self.len most)) }
    {
        samples(alloc, lent(self.len, most), u32::from(self.seed))
    }
}

// ---- the pictures of two lists: the first 15 numbers of a record

// Which plane of a picture.
#[derive(Clone, Copy, PartialEq, Eq)]
pub enum Component {
    Y,
    U,
    V,
}

impl Component {
    fn plane_type(self) -> PlaneType
        ensures { result ≡ type_of self }
    {
        match self {
            Component::Y => PlaneType::Y,
            Component::U | Component::V => PlaneType::UV,
        }
    }
}

// The planes of a picture.
#[derive(Drop)]
pub struct Planes {
    pub y: Vec<u16>,
    pub u: Vec<u16>,
    pub v: Vec<u16>,
}

// The planes that a record asks for: their lengths, and the seed of the first one.
#[derive(Clone, Copy)]
pub struct ArbitraryPlanes {
    pub seed: u16,
    pub y_len: u16,
    pub u_len: u16,
    pub v_len: u16,
}

impl ArbitraryPlanes {
    // Each plane from the next seed on.
    pub fn planes(self, alloc: Global, limit: u16) -> Result<Planes, AllocError>
        ensures { IfOk result (λ planes. (planes.y.items ≡ samples_of self Component.Y limit)
            × (planes.u.items ≡ samples_of self Component.U limit) × (planes.v.items ≡ samples_of self Component.V limit)) }
    {
        let seed = u32::from(self.seed);
        Ok(Planes {
            y: samples_below(alloc, usize::from(self.y_len), seed, limit)?,
            u: samples_below(alloc, usize::from(self.u_len), seed + 1, limit)?,
            v: samples_below(alloc, usize::from(self.v_len), seed + 2, limit)?,
        })
    }
}

// A sample that is set once the planes are made.
#[derive(Clone, Copy)]
pub struct SetSample {
    pub list: RefList,
    pub component: Component,
    pub place: u16,
    pub value: u16,
}

impl SetSample {
    // The plane is one of six, by its number; any other number sets none.
    fn new(plane: u16, place: u16, value: u16) -> Option<SetSample>
        ensures { result ≡ set_sample_of plane place value }
    {
        let (list, component) = match plane {
            0 => (RefList::List0, Component::Y),
            1 => (RefList::List0, Component::U),
            2 => (RefList::List0, Component::V),
            3 => (RefList::List1, Component::Y),
            4 => (RefList::List1, Component::U),
            5 => (RefList::List1, Component::V),
            _ => return None,
        };
        Some(SetSample {
            list,
            component,
            place,
            value,
        })
    }

    fn is_in(self, list: RefList, component: Component) -> bool
        ensures { result ≡ is_in self list component }
    {
        self.list == list && self.component == component
    }

    // If the plane is that long. `get_mut` would need the same `if`.
    fn set(self, plane: &mut [u16])
        ensures { plane.new ≡ set plane.old self.place self.value }
    {
        let place = usize::from(self.place);
        if place < plane.len() {
            plane[place] = self.value;
        }
    }
}

// How the planes of both pictures are made.
#[derive(Drop)]
pub struct Pictures {
    pub pic_w: u32,
    pub pic_h: u32,
    pub planes0: ArbitraryPlanes,
    pub planes1: ArbitraryPlanes,
    pub limit: u16,
    pub is_padded: bool,
    pub set: Option<SetSample>,
}

impl Pictures {
    pub fn new(numbers: [u16; 15]) -> Pictures
        ensures { result ≡ pictures_of numbers }
    {
        let [
            pic_w,
            pic_h,
            seed0,
            seed1,
            limit,
            is_padded,
            y_len0,
            u_len0,
            v_len0,
            y_len1,
            u_len1,
            v_len1,
            plane,
            place,
            value,
        ] = numbers;
        Pictures {
            pic_w: number32(pic_w),
            pic_h: number32(pic_h),
            planes0: ArbitraryPlanes {
                seed: seed0,
                y_len: y_len0,
                u_len: u_len0,
                v_len: v_len0,
            },
            planes1: ArbitraryPlanes {
                seed: seed1,
                y_len: y_len1,
                u_len: u_len1,
                v_len: v_len1,
            },
            limit,
            is_padded: is_padded == 1,
            set: SetSample::new(plane, place, value),
        }
    }

    fn planes(&self, list: RefList) -> ArbitraryPlanes
        ensures { result ≡ planes_of self.now list }
    {
        match list {
            RefList::List0 => self.planes0,
            RefList::List1 => self.planes1,
        }
    }

    // A plane that is too short to be padded stays.
    fn pad(&self, t: PlaneType, plane: &mut [u16])
        ensures { plane.new ≡ padded_plane self.now t plane.old }
    {
        if self.is_padded {
            let _ = evc_pad::pad(t, self.pic_w, self.pic_h, plane);
        }
    }

    // What is done to a plane once its samples are made.
    pub fn finish(&self, list: RefList, component: Component, plane: &mut [u16])
        ensures { plane.new ≡ finished self.now list component plane.old }
    {
        self.pad(component.plane_type(), plane);
        if let Some(set) = self.set
            && set.is_in(list, component)
        {
            set.set(plane);
        }
    }

    // The picture of a list.
    pub fn picture(&self, alloc: Global, list: RefList) -> Result<Planes, AllocError>
        ensures { IfOk result (λ planes. (planes.y.items ≡ plane_of self.now list Component.Y)
            × (planes.u.items ≡ plane_of self.now list Component.U)
            × (planes.v.items ≡ plane_of self.now list Component.V)) }
    {
        let mut planes = self.planes(list).planes(alloc, self.limit)?;
        self.finish(list, Component::Y, &mut planes.y);
        self.finish(list, Component::U, &mut planes.u);
        self.finish(list, Component::V, &mut planes.v);
        Ok(planes)
    }
}

// ---- what is printed

pub fn print_line<W: Write, D: Display + Drop>(out: &mut W, line: D) -> io::Result<()>
    ensures { OnOk result (IfSome (D.output line) (λ text. Appends (W.contents out.old) (W.contents out.new) (text ++ 10 ∷ []))) }
{
    writeln!(out, "{line}")
}

// A number that depends on every sample and its place: a polynomial of the samples at 257, modulo a prime.
pub fn hash(samples: &[u16]) -> u32
    ensures { result ≡ hash samples.now }
{
    samples.iter().fold(1, |z, sample| {
        ((u64::from(z) * 257 + u64::from(*sample)) % 65521) as u32
    })
}

// Samples behind another, a space before each.
#[derive(Clone, Copy)]
struct Others<'a>(&'a [u16]);

impl Display for Others<'_> {
    ghost output = { λ s. Some (others s.0.now) };

    fn fmt<W: fmt::Write>(&self, f: &mut fmt::Formatter<W>) -> fmt::Result {
        for sample in self.0 {
            write!(f, " {sample}")?;
        }
        Ok(())
    }
}

// Samples to be read.
#[derive(Clone, Copy)]
struct Spaced<'a>(&'a [u16]);

impl Display for Spaced<'_> {
    ghost output = { λ s. Some (spaced s.0.now) };

    fn fmt<W: fmt::Write>(&self, f: &mut fmt::Formatter<W>) -> fmt::Result {
        match self.0.split_first() {
            None => Ok(()),
            Some((first, others)) => write!(f, "{first}{}", Others(others)),
        }
    }
}

// A row is printed whole, or as a number.
#[derive(Clone, Copy)]
pub enum RowForm {
    Whole,
    Number,
}

// As a record asks for it: 1 stands for the rows whole.
impl From<u16> for RowForm {
    ghost from_gives = { λ n form. form ≡ row_form n };

    fn from(n: u16) -> RowForm {
        match n {
            1 => RowForm::Whole,
            _ => RowForm::Number,
        }
    }
}

fn print_row<W: Write>(out: &mut W, row: &[u16], form: RowForm) -> io::Result<()>
    ensures { OnOk result (Appends (W.contents out.old) (W.contents out.new) (row_line form row.now)) }
{
    match form {
        RowForm::Whole => print_line(out, Spaced(row)),
        RowForm::Number => print_line(out, hash(row)),
    }
}

// The last row may be shorter.
pub fn print_rows<W: Write>(
    out: &mut W,
    samples: &[u16],
    stride: usize,
    form: RowForm,
) -> io::Result<()>
    requires { 0 < stride }
    ensures { OnOk result (Appends (W.contents out.old) (W.contents out.new) (rows_text stride form samples.now)) }
{
    for row in samples.chunks(stride) {
        print_row(out, row, form)?;
    }
    Ok(())
}

// The flags of a call, behind the number that it returns.
#[derive(Clone, Copy)]
pub struct Flags(pub Result<u16, Refusal>);

impl Display for Flags {
    ghost output = { λ flags. Some (flags_text flags.0) };

    fn fmt<W: fmt::Write>(&self, f: &mut fmt::Formatter<W>) -> fmt::Result {
        let code = evc_def::code(self.0.map(|_| ()));
        write!(f, "{code} {}", self.0.unwrap_or(0))
    }
}

#[cfg(test)]
mod tests {
    use super::*;
    use std::test::Fail;

    #[test]
    fn makes_words_and_samples(rt: HostRuntime) -> Result<(), Fail> {
        let alloc = rt.alloc();
        let words = words_of(alloc, &[1, 2, 7])?;
        assert_eq!(rt;
            words.as_slice(),
            [0x80000000, 0x00008000, 0xffffffff].as_slice()
        );
        let all = samples(alloc, 3, 1)?;
        assert_eq!(rt; all.as_slice(), [33676, 11517, 20227].as_slice());
        let lent = Arbitrary { len: 9, seed: 1 }.samples(alloc, 2)?;
        assert_eq!(rt; lent.as_slice(), [33676, 11517].as_slice());
        let small = samples_below(alloc, 3, 1, 100)?;
        assert_eq!(rt; small.as_slice(), [76, 17, 27].as_slice());
        Ok(())
    }

    #[test]
    fn reads_what_there_is(rt: HostRuntime) -> Result<(), Fail> {
        let mut input = [1u8, 2, 3].as_slice();
        let two = read_vec(rt.alloc(), &mut input, 2)?;
        assert_eq!(rt; two.map(|bytes| bytes.len()), Some(2));
        let none = read_lent(rt.alloc(), &mut input, 2, 0)?;
        assert_eq!(rt; none.map(|bytes| bytes.len()), Some(0));
        let more = read_vec(rt.alloc(), &mut input, 2)?;
        assert!(rt; more.is_none());
        Ok(())
    }

    #[test]
    fn runs_as_many_records_as_asked(rt: HostRuntime) -> Result<(), Fail> {
        let mut input = [1u8, 2, 3].as_slice();
        let mut last = 0;
        for_each_record(rt.alloc(), &mut input, 2, |_, [byte]: [u8; 1]| {
            last = byte;
            Ok(())
        })?;
        assert_eq!(rt; last, 2);
        assert_eq!(rt; input, [3].as_slice());
        Ok(())
    }

    #[test]
    fn makes_a_picture(rt: HostRuntime) -> Result<(), Fail> {
        let numbers = [4, 4, 1, 0, 100, 0, 3, 0, 0, 0, 0, 0, 0, 1, 5];
        let picture = Pictures::new(numbers).picture(rt.alloc(), RefList::List0)?;
        assert_eq!(rt; picture.y.len(), 3);
        assert_eq!(rt; picture.y.as_slice(), [76, 5, 27].as_slice());
        assert_eq!(rt; picture.v.len(), 0);
        Ok(())
    }
}
