#![tactic(auto)]

ghost use Rattle.std.specs.Prelude.{◌≡◌, true, false, IfOk, Ok, ℕ, ◌+◌, ◌*◌, ◌≤◌, length, get_or};
ghost use Rattle.evc_int.specs.Lists.{with_block};
ghost use Rattle.evc_def.specs.Refusals.{code_of};
ghost use Rattle.evc_plane.specs.Planes.{side_of, stride_of, plane_len};
ghost use Rattle.evc_map.specs.Maps.{is_present, numbers_of};
ghost use Rattle.evc_direct.specs.Direct.{answer_of as direct_answer};
ghost use Rattle.evc_lanes.specs.Inner.{is_row_width};
ghost use Rattle.evc_mc.specs.Block.{luma, cb, cr, pred_len, answer_of, mc2_answer, with_samples, first_sample, planes_short};
ghost use Rattle.evc_mc.specs.Inner.{block_sample};
ghost use Rattle.evc_mc.specs.Lent.{list_of, in_use};
ghost use Rattle.evc_trace.specs.Format.{count_len, record_of};
ghost use Rattle.evc_trace.specs.Kinds.{byte_of};
ghost use Rattle.evc_record.specs.Record.{planes_of, target_of, SamePlanes, with_planes, picture_short, source_of, place_in, with_picture};
ghost use Rattle.evc_record.specs.Record.{block_of, pocs_of, motion_of, list0_of, list1_of, blank, form_code, record_answer};
ghost use Rattle.evc_record.specs.Inner.{record_list, after_record};

use evc_def::{Block, EvcBlock, Picture, RefList, Refusal};
use evc_direct::{DirectVectors, Pocs};
use evc_mc::{ListsMoved, Planes, RefPicList};
use evc_plane::{PlaneSlice, PlaneType};
use evc_trace::{EvcTraceRecord, Kind, RECORD_LEN, TraceHeader};

// ---- what is lent

// Two reference pictures, and the collocated motion map or none.
#[derive(Clone, Copy)]
pub struct References<'a> {
    pub ref0: Planes<'a>,
    pub ref1: Planes<'a>,
    pub col_mv: Option<&'a [i16]>,
}

// What every record of a trace is replayed from.
#[derive(Clone, Copy)]
pub struct Source<'a> {
    pub header: TraceHeader,
    pub references: References<'a>,
}

// The three planes of a target.
#[derive(Drop)]
pub struct PlanesMut<'a> {
    pub y: &'a mut [u16],
    pub u: &'a mut [u16],
    pub v: &'a mut [u16],
}

// ---- a block's samples into the target

// h rows of w samples that lie one behind the other, to rows that are `stride` apart. By number: the target's last row may be
// shorter than that, and of what a loop over mutable chunks wrote, a proof knows nothing (evc_pad).
fn copy_block(s: &[u16], at: usize, w: usize, h: usize, d: &mut [u16], to: usize, stride: usize)
    requires { (at + h * w ≤ length s.now) × (to + h * stride + w ≤ length d.old + stride) × (is_row_width w ≡ true) }
    ensures { d.new ≡ with_block d.old to stride w h (λ (y x : ℕ). get_or s.now (at + y * w + x) 0) }
{
    let samples = PlaneSlice {
        plane: s,
        stride: w,
        at,
    };
    for y in 0..h {
        evc_paths::copy_row(samples.row(y), w, d, to + y * stride);
    }
}

// A component of a block, from its offset in a predicted block to its place in a plane's picture.
fn put_component(t: PlaneType, b: Block, pred: &[u16], offset: usize, plane: &mut [u16])
    requires { (offset + side_of t b.given.h * side_of t b.given.w ≤ length pred.now) × (plane_len t b.given.pic_w b.given.pic_h ≤ length plane.old) }
    ensures { let w = side_of t b.given.w in
        let h = side_of t b.given.h in
        plane.new ≡ with_block plane.old (place_in t b.given) (stride_of t b.given.pic_w) w h (λ (y x : ℕ). get_or pred.now (offset + y * w + x) 0) }
{
    let c = evc_plane::plane_config(t, b.picture());
    let x = c.xorigin + t.side(b.given.x);
    let y = c.yorigin + t.side(b.given.y);
    let w = t.side(b.given.w);
    let h = t.side(b.given.h);
    copy_block(pred, offset, w, h, plane, y * c.stride + x, c.stride);
}

// ---- a record, its motion and lists

// A record whose form is right.
#[derive(Clone, Copy)]
struct Record {
    kind: Kind,
    fields: EvcTraceRecord,
    ghost kind_is: { fields.kind ≡ byte_of kind },
}

fn checked_record(s: &[u8]) -> Result<Record, Refusal>
    ensures code { code_of result ≡ form_code s.now }
    ensures value { IfOk result (λ r. r.fields ≡ record_of count_len s.now) }
{
    if s.len() < RECORD_LEN {
        return Err(Refusal::Incomplete);
    }
    let fields = evc_trace::read_record(s);
    let kind = Kind::try_from(fields.kind)?;
    if !(evc_trace::is_well_formed(fields) & (s[21] == 0)) {
        return Err(Refusal::Record);
    }
    Ok(Record { kind, fields })
}

fn block_of(h: TraceHeader, r: EvcTraceRecord) -> EvcBlock
    ensures { result ≡ block_of h r }
{
    EvcBlock {
        pic_w: h.pic_w,
        pic_h: h.pic_h,
        x: u32::from(r.x),
        y: u32::from(r.y),
        w: u32::from(r.w),
        h: u32::from(r.h),
    }
}

fn pocs_of(h: TraceHeader, r: EvcTraceRecord) -> Pocs
    ensures { result ≡ pocs_of h r }
{
    Pocs {
        poc: h.poc,
        poc0: u32::from(r.poc0),
        poc1: u32::from(r.poc1),
        list_poc0: h.list_poc0,
    }
}

fn motion(from: &Source, r: Record) -> Result<DirectVectors, Refusal>
    ensures { let e = source_of from.now in
        direct_answer result ≡ motion_of e.header e.has_col e.col r.fields }
{
    let h = from.header;
    let Record { kind, fields } = r;
    if kind == Kind::Direct {
        return evc_direct::get_mv_dir(
            block_of(h, fields),
            pocs_of(h, fields),
            from.references.col_mv,
        );
    }
    Ok(DirectVectors {
        mv0: fields.mv0,
        mv1: fields.mv1,
    })
}

// A list of the record with its picture; None where the kind is that of the other list alone.
fn ref_pic_list<'a>(
    list: RefList,
    r: Record,
    m: DirectVectors,
    planes: Planes<'a>,
) -> Option<RefPicList<'a>>
    ensures { list_of result ≡ in_use (with_planes (record_list list r.fields (direct_answer (Ok m))) (planes_of planes.entry)) }
{
    let (other, mv, poc) = match list {
        RefList::List0 => (Kind::List1, m.mv0, r.fields.poc0),
        RefList::List1 => (Kind::List0, m.mv1, r.fields.poc1),
    };
    (r.kind != other).then_some(RefPicList {
        mv,
        poc: u32::from(poc),
        planes,
    })
}

// ---- a record

impl PlanesMut<'_> {
    pub fn are_short(&self, pic: Picture) -> bool
        ensures { result ≡ planes_short pic.w pic.h self.now.y.now self.now.u.now self.now.v.now }
    {
        let planes = Planes {
            y: self.y,
            u: self.u,
            v: self.v,
        };
        planes.are_short(pic)
    }

    // The three components of a predicted block. That the target is long enough is a fact of it and of a picture's sides together: no ghost
    // field of either holds it, so it stands in contracts, here and in evc_replay.
    fn put_block(&mut self, b: Block, pred: &[u16])
        requires pred_len_in_bounds { pred_len ≤ length pred.now }
        requires long_enough { picture_short b.given.pic_w b.given.pic_h (target_of self.old) ≡ false }
        ensures y_after { self.new.y.now ≡ with_picture b.given luma (block_sample b.given pred.now luma) self.old.y.now }
        ensures u_after { self.new.u.now ≡ with_picture b.given cb (block_sample b.given pred.now cb) self.old.u.now }
        ensures v_after { self.new.v.now ≡ with_picture b.given cr (block_sample b.given pred.now cr) self.old.v.now }
        ensures same_planes { SamePlanes self.old self.new }
    {
        let offset_u = evc_def::cu_dim_offset(1);
        let offset_v = evc_def::cu_dim_offset(2);
        put_component(PlaneType::Y, b, pred, 0, self.y);
        put_component(PlaneType::UV, b, pred, offset_u, self.u);
        put_component(PlaneType::UV, b, pred, offset_v, self.v);
    }
}

// A record's block, predicted into the first of two blocks.
fn predict_record(
    from: &Source,
    r: Record,
    m: DirectVectors,
    pred0: &mut [u16],
    pred1: &mut [u16],
) -> Result<ListsMoved, Refusal>
    requires { (length pred0.old ≡ pred_len) × (length pred1.old ≡ pred_len) }
    ensures result_value { let e = source_of from.now in
        let l0 = with_planes (list0_of r.fields (direct_answer (Ok m))) e.ref0 in
        let l1 = with_planes (list1_of r.fields (direct_answer (Ok m))) e.ref1 in
        answer_of result ≡ mc2_answer (block_of e.header r.fields) l0 l1 blank blank }
    ensures pred0_after { let e = source_of from.now in
        let b = block_of e.header r.fields in
        let l0 = with_planes (list0_of r.fields (direct_answer (Ok m))) e.ref0 in
        let l1 = with_planes (list1_of r.fields (direct_answer (Ok m))) e.ref1 in
        code_of result ≡ 0 → pred0.new ≡ with_samples b (first_sample b l0 l1) pred0.old }
{
    let References { ref0, ref1, .. } = from.references;
    let l0 = ref_pic_list(RefList::List0, r, m, ref0);
    let l1 = ref_pic_list(RefList::List1, r, m, ref1);
    let block = block_of(from.header, r.fields);
    evc_mc::evc_mc2(block, l0.as_ref(), l1.as_ref(), pred0, pred1)
}

// One record: its number and reports, and on 0 its block in the target.
pub fn replay_record(
    from: &Source,
    s: &[u8],
    target: &mut PlanesMut,
    pred0: &mut [u16],
    pred1: &mut [u16],
) -> Result<ListsMoved, Refusal>
    requires long_enough { picture_short from.now.header.pic_w from.now.header.pic_h (target_of target.old) ≡ false }
    requires pred0_len { (length pred0.old ≡ pred_len) × (length pred1.old ≡ pred_len) }
    ensures result_value { answer_of result ≡ record_answer (source_of from.now) s.now }
    ensures target_after { target_of target.new ≡ after_record (source_of from.now) s.now (target_of target.old) }
    ensures same_planes { SamePlanes target.old target.new }
{
    let r = checked_record(s)?;
    let m = motion(from, r)?;
    let moved = predict_record(from, r, m, pred0, pred1)?;
    let given = block_of(from.header, r.fields);
    target.put_block(Block { given }, pred0);
    Ok(moved)
}
