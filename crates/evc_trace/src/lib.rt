#![tactic(auto)]

ghost use Rattle.std.specs.Prelude.{◌≡◌, ◌+◌, ◌≤◌, length};
ghost use Rattle.evc_def.specs.Refusals.{code_of};
ghost use Rattle.evc_bytes.specs.Inner.{moved, Puts};
ghost use Rattle.evc_trace.specs.Format.{version, count_len, header_len, header_bytes, is_trace, header_of, overwritten, write_header_code, write_header_after};
ghost use Rattle.evc_trace.specs.Format.{record_len, mv_of, mv_bytes, record_bytes, record_of, is_well_formed, write_record_code, write_record_after};
ghost use Rattle.evc_trace.specs.declared.TraceHeader.{TraceHeader};

use evc_bytes::{Reader, Writer};
use evc_def::{EvcMv, Picture, Refusal};

pub const HEADER_LEN: usize = 13;

pub const RECORD_LEN: usize = 22;

// The letters and the version.
const MARK_LEN: usize = 5;

const VERSION: u16 = 1;

// The picture's sides, its order count, and the first count that the collocated reference lists.
#[derive(Clone, Copy)]
pub struct TraceHeader {
    pub pic_w: u32,
    pub pic_h: u32,
    pub poc: u32,
    pub list_poc0: u32,
}

// The fields of a record, as wide as in the trace.
#[repr(C)]
#[derive(Clone, Copy)]
pub struct EvcTraceRecord {
    pub x: u16,
    pub y: u16,
    pub w: u16,
    pub h: u16,
    pub kind: u8,
    pub mv0: EvcMv,
    pub mv1: EvcMv,
    pub poc0: u16,
    pub poc1: u16,
}

// The lists that a record's block is predicted from: one or both, with its own vectors, or both with direct ones.
#[derive(Clone, Copy, PartialEq, Eq)]
pub enum Kind {
    List0,
    List1,
    Both,
    Direct,
}

// By its byte in the trace.
impl TryFrom<u8> for Kind {
    type Error = Refusal;

    ghost use Rattle.evc_trace.specs.Kinds.{IsKind};

    ghost try_from_gives = { IsKind };

    fn try_from(byte: u8) -> Result<Kind, Refusal> {
        match byte {
            0 => Ok(Kind::List0),
            1 => Ok(Kind::List1),
            2 => Ok(Kind::Both),
            3 => Ok(Kind::Direct),
            _ => Err(Refusal::Record),
        }
    }
}

// ---- fields

fn put_mv(bytes: &mut Writer, mv: EvcMv)
    requires { bytes.old.at + 4 ≤ length bytes.old.out.now }
    ensures { Puts bytes.old bytes.new (mv_bytes mv) }
{
    bytes.put_i16(mv.x);
    bytes.put_i16(mv.y);
}

fn take_mv(bytes: &mut Reader) -> EvcMv
    requires { bytes.old.at + 4 ≤ length bytes.old.bytes.now }
    ensures value { result ≡ mv_of bytes.old.bytes.now bytes.old.at }
    ensures moved { bytes.new ≡ moved bytes.old 4 }
{
    EvcMv {
        x: bytes.take_i16(),
        y: bytes.take_i16(),
    }
}

// ---- form

pub fn is_well_formed(r: EvcTraceRecord) -> bool
    ensures { result ≡ is_well_formed r }
{
    let zero0 = r.mv0 == EvcMv::default();
    let zero1 = r.mv1 == EvcMv::default();
    match Kind::try_from(r.kind) {
        Ok(Kind::List0) => zero1 & (r.poc1 == 0),
        Ok(Kind::List1) => zero0 & (r.poc0 == 0),
        Ok(Kind::Both) => true,
        Ok(Kind::Direct) => zero0 & zero1,
        Err(_) => false,
    }
}

// ---- the readers, each over a part that starts at the header or at the record

pub fn is_trace(s: &[u8]) -> bool
    requires { header_len count_len ≤ length s.now }
    ensures { result ≡ is_trace version s.now }
{
    let version = evc_bytes::u16_at(s, 3);
    s.starts_with(b"IPT") & (version == VERSION)
}

pub fn read_header(s: &[u8]) -> TraceHeader
    requires { header_len count_len ≤ length s.now }
    ensures { result ≡ header_of count_len s.now }
{
    let mut bytes = Reader::new(s, MARK_LEN);
    TraceHeader {
        pic_w: u32::from(bytes.take_u16()),
        pic_h: u32::from(bytes.take_u16()),
        poc: u32::from(bytes.take_u16()),
        list_poc0: u32::from(bytes.take_u16()),
    }
}

pub fn read_record(s: &[u8]) -> EvcTraceRecord
    requires { record_len count_len ≤ length s.now }
    ensures { result ≡ record_of count_len s.now }
{
    let mut bytes = Reader::new(s, 0);
    EvcTraceRecord {
        x: bytes.take_u16(),
        y: bytes.take_u16(),
        w: bytes.take_u16(),
        h: bytes.take_u16(),
        kind: bytes.take_u8(),
        mv0: take_mv(&mut bytes),
        mv1: take_mv(&mut bytes),
        poc0: bytes.take_u16(),
        poc1: bytes.take_u16(),
    }
}

// ---- the writers

// Field by field, as the call gives them: counts have two bytes here and four in `TraceHeader`.
fn put_header(pic_w: u16, pic_h: u16, poc: u16, list_poc0: u16, out: &mut [u8])
    requires { header_len count_len ≤ length out.old }
    ensures { (
        let h : TraceHeader = record { pic_w = pic_w; pic_h = pic_h; poc = poc; list_poc0 = list_poc0 } in
        out.new ≡ overwritten (header_bytes version count_len h) out.old) }
{
    let mut bytes = Writer::new(out);
    bytes.put_u8(b'I');
    bytes.put_u8(b'P');
    bytes.put_u8(b'T');
    bytes.put_u16(VERSION);
    bytes.put_u16(pic_w);
    bytes.put_u16(pic_h);
    bytes.put_u16(poc);
    bytes.put_u16(list_poc0);
}

fn put_record(r: EvcTraceRecord, out: &mut [u8])
    requires { record_len count_len ≤ length out.old }
    ensures { out.new ≡ overwritten (record_bytes count_len r) out.old }
{
    let mut bytes = Writer::new(out);
    bytes.put_u16(r.x);
    bytes.put_u16(r.y);
    bytes.put_u16(r.w);
    bytes.put_u16(r.h);
    bytes.put_u8(r.kind);
    put_mv(&mut bytes, r.mv0);
    put_mv(&mut bytes, r.mv1);
    bytes.put_u16(r.poc0);
    bytes.put_u16(r.poc1);
    bytes.put_u8(0);
}

pub fn write_header(
    pic_w: u32,
    pic_h: u32,
    poc: u16,
    list_poc0: u16,
    out: &mut [u8],
) -> Result<(), Refusal>
    ensures value { code_of result ≡ write_header_code pic_w pic_h out.old }
    ensures out_after { out.new ≡ write_header_after (record { pic_w = pic_w; pic_h = pic_h; poc = poc; list_poc0 = list_poc0 }) out.old }
{
    let pic = Picture::new(pic_w, pic_h)?;
    if out.len() < HEADER_LEN {
        return Err(Refusal::Buffer);
    }
    put_header(pic.w as u16, pic.h as u16, poc, list_poc0, out);
    Ok(())
}

pub fn write_record(
    pic_w: u32,
    pic_h: u32,
    trace_record: EvcTraceRecord,
    out: &mut [u8],
) -> Result<(), Refusal>
    ensures value { code_of result ≡ write_record_code pic_w pic_h trace_record out.old }
    ensures out_after { out.new ≡ write_record_after pic_w pic_h trace_record out.old }
{
    Picture::new(pic_w, pic_h)?;
    if out.len() < RECORD_LEN {
        return Err(Refusal::Buffer);
    }
    if !is_well_formed(trace_record) {
        return Err(Refusal::Record);
    }
    put_record(trace_record, out);
    Ok(())
}
