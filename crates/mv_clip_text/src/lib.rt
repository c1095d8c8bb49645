#![tactic(auto)]

ghost use Rattle.std.specs.Prelude.{◌≡◌, ◌≢◌, ◌⊎◌, ℕ, ◌∷◌, [], ◌++◌, ◌+◌, ◌-◌, ◌*◌, ◌/◌, ◌^◌, ◌<◌, ◌≤◌, length, take, IfOk, OnOk, IfSome};
ghost use Rattle.std.specs.Io.KnownBytes.{Appends, Consumes, IsAtEnd};
ghost use Rattle.evc_int.specs.LowBits.{signed16};
ghost use Rattle.mv_clip_text.specs.Decimal.{digit, decimal, signed_decimal};
ghost use Rattle.mv_clip_text.specs.Records.{field, answer_at, line, text};
ghost use Rattle.mv_clip_text.specs.Inner.{Wrote};
ghost use Rattle.mv_clip_text.specs.Program.{refused_picture, header, ChunkAnswered};

use evc_clip::EvcClipped;
use evc_def::{EvcBlock, EvcMv, Refusal};
use std::io;
use std::io::{Read, Write};

const RECORD_LEN: usize = 16;
// The longest line: five digits for a number, a sign for each component, two spaces and the line's end.
const MAX_LINE_LEN: usize = 20;

const CHUNK_RECORDS: usize = 3072;

const CHUNK_LEN: usize = CHUNK_RECORDS * RECORD_LEN;
// A line for each record of a chunk, and one for an incomplete last record.
const MAX_TEXT_LEN: usize = (CHUNK_RECORDS + 1) * MAX_LINE_LEN;

// ---- a record's answer

// A number by its place, of either sign: the definition `field` reads it so.
fn field(record: &[u8; RECORD_LEN], k: usize) -> u32
    requires { k < 8 }
    ensures { result ≡ field record.now 0 k }
{
    u32::from(evc_bytes::u16_at(record, 2 * k))
}

fn component(record: &[u8; RECORD_LEN], k: usize) -> i16
    requires { k < 8 }
    ensures { result ≡ signed16 (field record.now 0 k) }
{
    evc_bytes::i16_at(record, 2 * k)
}

fn answer(record: &[u8; RECORD_LEN]) -> EvcClipped
    ensures value { result ≡ answer_at record.now 0 }
    ensures negative_picture { (32768 ≤ field record.now 0 2) ⊎ (32768 ≤ field record.now 0 3) → result ≡ refused_picture }
    ensures negative { (k : ℕ) → k < 6 → 32768 ≤ field record.now 0 k → result.code ≢ 0 }
    ensures small { result.code < 100000 }
{
    let block = EvcBlock {
        x: field(record, 0),
        y: field(record, 1),
        pic_w: field(record, 2),
        pic_h: field(record, 3),
        w: field(record, 4),
        h: field(record, 5),
    };
    let mv = EvcMv {
        x: component(record, 6),
        y: component(record, 7),
    };
    evc_clip::mv_clip(block, mv).into()
}

// ---- an answer's line: each function writes at `at` and returns the place behind what it wrote. With `writeln!` the whole program took 2.9 times the
// instructions.

fn put(out: &mut [u8], at: usize, byte: u8) -> usize
    requires { at < length out.old }
    ensures { Wrote out.old out.new at result (byte ∷ []) }
{
    out[at] = byte;
    at + 1
}

fn put_digit(out: &mut [u8], at: usize, weight: u32, n: u32) -> usize
    requires { (at < length out.old) × (0 < weight) }
    ensures wrote { Wrote out.old out.new at result (digit weight n) }
    ensures upper_bound { result ≤ at + 1 }
{
    if weight <= n {
        put(out, at, b'0' + (n / weight % 10) as u8)
    } else {
        at
    }
}

fn put_decimal(out: &mut [u8], at: usize, n: u32) -> usize
    requires { at + 5 ≤ length out.old }
    ensures wrote { Wrote out.old out.new at result (decimal n) }
    ensures upper_bound { result ≤ at + 5 }
{
    let thousands = put_digit(out, at, 10000, n);
    let hundreds = put_digit(out, thousands, 1000, n);
    let tens = put_digit(out, hundreds, 100, n);
    let ones = put_digit(out, tens, 10, n);
    put(out, ones, b'0' + (n % 10) as u8)
}

fn put_signed(out: &mut [u8], at: usize, v: i16) -> usize
    requires { at + 6 ≤ length out.old }
    ensures wrote { Wrote out.old out.new at result (signed_decimal v) }
    ensures upper_bound { result ≤ at + 6 }
{
    if v < 0 {
        let digits = put(out, at, b'-');
        return put_decimal(out, digits, (0 - v as i32) as u32);
    }
    put_decimal(out, at, v as u32)
}

fn put_line(out: &mut [u8], at: usize, a: EvcClipped) -> usize
    requires { at + 20 ≤ length out.old }
    ensures wrote { Wrote out.old out.new at result (line a) }
    ensures upper_bound { result ≤ at + 20 }
    ensures longest { length (line a) ≤ 20 }
{
    let mv = a.mv;
    let after_code = put_decimal(out, at, a.code);
    let x = put(out, after_code, b' ');
    let after_x = put_signed(out, x, mv.x);
    let y = put(out, after_x, b' ');
    let after_y = put_signed(out, y, mv.y);
    put(out, after_y, b'\n')
}

// ---- the text of a chunk of records

fn chunk_text(records: &[u8], out: &mut [u8]) -> usize
    requires { 20 * (length records.now / 16 + 1) ≤ length out.old }
    ensures { Wrote out.old out.new 0 result (text records.now) }
{
    let (whole, rest) = records.as_chunks::<RECORD_LEN>();
    let mut at = 0;
    for record in whole {
        at = put_line(out, at, answer(record));
    }
    if rest.is_empty() {
        return at;
    }
    // An incomplete last record is a buffer too short.
    put_line(out, at, EvcClipped::from(Err(Refusal::Buffer)))
}

// In one write, before more is read: who waits for a full chunk's answers gets them.
fn print_text<W: Write>(out: &mut W, records: &[u8]) -> io::Result<()>
    requires { length records.now ≤ 49152 }
    ensures { OnOk result (Appends (W.contents out.old) (W.contents out.new) (text records.now)) }
{
    let mut lines = [0u8; MAX_TEXT_LEN];
    let end = chunk_text(records, &mut lines);
    out.write_all(&lines[..end])
}

// ---- the program

// Reads until the buffer is full or the input ends, and returns how many bytes that were. `read_exact` does not tell it of an input that ends;
// `read_to_end` needs an allocator, for which `run` does not ask. std's `read_exact` counts its place in the same way.
fn read_full<R: Read>(input: &mut R, bytes: &mut [u8]) -> io::Result<usize>
    ensures upper_bound { IfOk result (λ n. n ≤ length bytes.new) }
    ensures taken { IfOk result (λ n. Consumes (R.remaining input.old) (R.remaining input.new) (take n bytes.new)) }
    ensures ended { IfOk result (λ n. n < length bytes.new → IsAtEnd (R.remaining input.new)) }
{
    let mut n = 0;
    while n < bytes.len() {
        let more = input.read(&mut bytes[n..])?;
        if more == 0 {
            return Ok(n);
        }
        n += more;
    }
    Ok(n)
}

// One chunk, in fixed memory: `run` asks for no allocator. Answers whether to go on.
fn run_chunk<R: Read, W: Write>(input: &mut R, out: &mut W) -> io::Result<bool>
    ensures { IfOk result (λ more. ChunkAnswered (R.remaining input.old) (R.remaining input.new) (W.contents out.old) (W.contents out.new) more) }
{
    let mut records = [0u8; CHUNK_LEN];
    let n = read_full(input, &mut records)?;
    print_text(out, &records[..n])?;
    Ok(n == CHUNK_LEN)
}

// A proved loop has to end, and nothing says that the input does: the chunks are counted up to a number that no run reaches.
pub fn run<R: Read, W: Write>(input: &mut R, out: &mut W) -> io::Result<()>
    ensures { OnOk result (IfSome (R.remaining input.old) (λ s. length s < 49152 * (2 ^ 64 - 1) →
        Appends (W.contents out.old) (W.contents out.new) (header ++ text s))) }
{
    out.write_all(b"answer mvx mvy\n")?;
    for _ in 0..u64::MAX {
        if !run_chunk(input, out)? {
            break;
        }
    }
    Ok(())
}
