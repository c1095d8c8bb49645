//! The calls of include/evc_inter.h, each over the function that does its work.
#![tactic(auto)]

ghost use Rattle.std.specs.Prelude.{◌≡◌, cond, []};
ghost use Rattle.evc_map.specs.Maps.{is_present, numbers_of};
ghost use Rattle.evc_def.specs.Places.{given_place};
ghost use Rattle.evc_clip.specs.Clip.{mv_clip};
ghost use Rattle.evc_avail.specs.Flags.{get_avail_inter};
ghost use Rattle.evc_avail.specs.Slices.{get_avail_inter_slice};
ghost use Rattle.evc_direct.specs.declared.Pocs.{Pocs};
ghost use Rattle.evc_direct.specs.Direct.{get_mv_dir};
ghost use Rattle.evc_motion.specs.Candidates.{get_motion};
ghost use Rattle.evc_pad.specs.Padding.{pad_code, pad_after};
ghost use Rattle.evc_interp.specs.Prediction.{mc_plane_code, mc_plane_after};
ghost use Rattle.evc_mc.specs.Block.{ref_pic_list, mc2_answer, mc2_first, mc2_second};
ghost use Rattle.evc_inter.specs.Kinds.{plane_type};
ghost use Rattle.evc_camera.specs.Camera.{camera_motion};
ghost use Rattle.evc_trace.specs.declared.TraceHeader.{TraceHeader};
ghost use Rattle.evc_trace.specs.Format.{write_header_code, write_header_after, write_record_code, write_record_after};
ghost use Rattle.evc_record.specs.Record.{planes};
ghost use Rattle.evc_replay.specs.Counts.{replayed_counts, counts_in};
ghost use Rattle.evc_replay.specs.Replay.{answer_in, replayed};

use evc_avail::EvcAvail;
use evc_camera::EvcCamera;
use evc_clip::EvcClipped;
use evc_def::{EvcBlock, EvcMv};
use evc_direct::{EvcDirect, Pocs};
use evc_mc::{EvcList, EvcPredicted, Planes, RefPicList};
use evc_motion::EvcCandidates;
use evc_plane::PlaneType;
use evc_record::{PlanesMut, References};
use evc_replay::EvcReplay;
use evc_trace::EvcTraceRecord;

// Flags, numbers for kinds, sides and planes as arguments of their own are the C interface, here and below.

fn plane_type(chroma: bool) -> PlaneType
    ensures { result ≡ plane_type chroma }
{
    if chroma { PlaneType::UV } else { PlaneType::Y }
}

// The collocated map, where there is one.
fn collocated(has_col: bool, col_mv: &[i16]) -> Option<&[i16]>
    ensures { (is_present result ≡ has_col) × (numbers_of result ≡ cond has_col col_mv.now []) }
{
    has_col.then_some(col_mv)
}

// The border of one plane, in place.
#[unsafe(no_mangle)]
pub extern "C" fn evc_pad(chroma: bool, pic_w: u32, pic_h: u32, plane: &mut [u16]) -> u32
    ensures value { result ≡ pad_code (plane_type chroma) pic_w pic_h plane.old }
    ensures plane_after { plane.new ≡ pad_after (plane_type chroma) pic_w pic_h plane.old }
{
    evc_def::code(evc_pad::pad(plane_type(chroma), pic_w, pic_h, plane))
}

// Neighbour flags.
#[unsafe(no_mangle)]
pub extern "C" fn evc_get_avail_inter(block: EvcBlock, map_scu: &[u32]) -> EvcAvail
    ensures { result ≡ get_avail_inter block map_scu.now }
{
    EvcAvail::from(evc_avail::get_avail_inter(block, map_scu))
}

// Neighbour flags of a block of one slice.
#[unsafe(no_mangle)]
pub extern "C" fn evc_get_avail_inter_slice(
    block: EvcBlock,
    slice_num: u32,
    map_scu: &[u32],
) -> EvcAvail
    ensures { result ≡ get_avail_inter_slice block slice_num map_scu.now }
{
    EvcAvail::from(evc_avail::get_avail_inter_slice(block, slice_num, map_scu))
}

// Direct vectors.
#[unsafe(no_mangle)]
pub extern "C" fn evc_get_mv_dir(
    block: EvcBlock,
    poc: u32,
    poc0: u32,
    poc1: u32,
    list_poc0: u32,
    has_col: bool,
    col_mv: &[i16],
) -> EvcDirect
    ensures { (
        let pocs : Pocs = record { poc = poc; poc0 = poc0; poc1 = poc1; list_poc0 = list_poc0 } in
        result ≡ get_mv_dir block pocs has_col col_mv.now) }
{
    let pocs = Pocs {
        poc,
        poc0,
        poc1,
        list_poc0,
    };
    EvcDirect::from(evc_direct::get_mv_dir(block, pocs, collocated(has_col, col_mv)))
}

// Clipping of one vector.
#[unsafe(no_mangle)]
pub extern "C" fn evc_mv_clip(block: EvcBlock, mv: EvcMv) -> EvcClipped
    ensures { result ≡ mv_clip block mv }
{
    EvcClipped::from(evc_clip::mv_clip(block, mv))
}

// The four candidates of a list, into the record lent. After a refusal nothing is stored.
#[unsafe(no_mangle)]
pub extern "C" fn evc_get_motion(
    block: EvcBlock,
    lidx: u32,
    avail: u16,
    map_mv: &[i16],
    has_col: bool,
    col_mv: &[i16],
    cand: &mut EvcCandidates,
) -> u32
    ensures code { result ≡ (get_motion block lidx avail map_mv.now has_col col_mv.now cand.old).code }
    ensures record_after { cand.new ≡ (get_motion block lidx avail map_mv.now has_col col_mv.now cand.old).cand }
{
    let map_col = collocated(has_col, col_mv);
    match evc_motion::get_motion(block, lidx, avail, map_mv, map_col, *cand) {
        Ok(found) => {
            *cand = found;
            0
        }
        Err(refusal) => refusal.number(),
    }
}

// The prediction of a block of one plane.
#[unsafe(no_mangle)]
pub extern "C" fn evc_mc_plane(
    chroma: bool,
    pic_w: u32,
    pic_h: u32,
    ori_mv: EvcMv,
    gmv: EvcMv,
    w: u32,
    h: u32,
    plane: &[u16],
    pred: &mut [u16],
) -> u32
    ensures result_value { let t = plane_type chroma in
        result ≡ mc_plane_code t pic_w pic_h (given_place gmv) w h plane.now pred.old }
    ensures pred_after { let t = plane_type chroma in
        pred.new ≡ mc_plane_after t pic_w pic_h ori_mv (given_place gmv) w h plane.now pred.old }
{
    let t = plane_type(chroma);
    evc_def::code(evc_interp::evc_mc_plane(t, pic_w, pic_h, ori_mv, gmv, w, h, plane, pred))
}

// The prediction of a block from one or two lists.
#[unsafe(no_mangle)]
pub extern "C" fn evc_mc2(
    block: EvcBlock,
    list0: EvcList,
    y0: &[u16],
    u0: &[u16],
    v0: &[u16],
    list1: EvcList,
    y1: &[u16],
    u1: &[u16],
    v1: &[u16],
    pred0: &mut [u16],
    pred1: &mut [u16],
) -> EvcPredicted
    ensures result_value { let l0 = ref_pic_list list0 y0.now u0.now v0.now in
        let l1 = ref_pic_list list1 y1.now u1.now v1.now in
        result ≡ mc2_answer block l0 l1 pred0.old pred1.old }
    ensures pred0_after { let l0 = ref_pic_list list0 y0.now u0.now v0.now in
        let l1 = ref_pic_list list1 y1.now u1.now v1.now in
        pred0.new ≡ mc2_first block l0 l1 pred0.old pred1.old }
    ensures pred1_after { let l0 = ref_pic_list list0 y0.now u0.now v0.now in
        let l1 = ref_pic_list list1 y1.now u1.now v1.now in
        pred1.new ≡ mc2_second block l0 l1 pred0.old pred1.old }
{
    let l0 = RefPicList {
        mv: list0.mv,
        poc: list0.poc,
        planes: Planes {
            y: y0,
            u: u0,
            v: v0,
        },
    };
    let l1 = RefPicList {
        mv: list1.mv,
        poc: list1.poc,
        planes: Planes {
            y: y1,
            u: u1,
            v: v1,
        },
    };
    let list0 = list0.used.then_some(&l0);
    let list1 = list1.used.then_some(&l1);
    let predicted = evc_mc::evc_mc2(block, list0, list1, pred0, pred1);
    EvcPredicted::from(predicted)
}

// The header of a trace.
#[unsafe(no_mangle)]
pub extern "C" fn evc_trace_write_header(
    pic_w: u32,
    pic_h: u32,
    poc: u16,
    list_poc0: u16,
    out: &mut [u8],
) -> u32
    ensures value { result ≡ write_header_code pic_w pic_h out.old }
    ensures out_after { (
        let header : TraceHeader = record { pic_w = pic_w; pic_h = pic_h; poc = poc; list_poc0 = list_poc0 } in
        out.new ≡ write_header_after header out.old) }
{
    evc_def::code(evc_trace::write_header(pic_w, pic_h, poc, list_poc0, out))
}

// A record of a trace.
#[unsafe(no_mangle)]
pub extern "C" fn evc_trace_write_record(
    pic_w: u32,
    pic_h: u32,
    trace_record: EvcTraceRecord,
    out: &mut [u8],
) -> u32
    ensures value { result ≡ write_record_code pic_w pic_h trace_record out.old }
    ensures out_after { out.new ≡ write_record_after pic_w pic_h trace_record out.old }
{
    evc_def::code(evc_trace::write_record(pic_w, pic_h, trace_record, out))
}

// A trace's records, replayed into the target.
#[unsafe(no_mangle)]
pub extern "C" fn evc_trace_replay(
    trace: &[u8],
    y0: &[u16],
    u0: &[u16],
    v0: &[u16],
    y1: &[u16],
    u1: &[u16],
    v1: &[u16],
    has_col: bool,
    col_mv: &[i16],
    y: &mut [u16],
    u: &mut [u16],
    v: &mut [u16],
) -> EvcReplay
    ensures after_after { let ref0 = planes y0.now u0.now v0.now in
        let ref1 = planes y1.now u1.now v1.now in
        let target = planes y.old u.old v.old in
        let after = planes y.new u.new v.new in
        record { answer = answer_in result; target = after } ≡ replayed trace.now ref0 ref1 has_col col_mv.now target }
    ensures result_value { let ref0 = planes y0.now u0.now v0.now in
        let ref1 = planes y1.now u1.now v1.now in
        let target = planes y.old u.old v.old in
        counts_in result ≡ replayed_counts trace.now ref0 ref1 has_col col_mv.now target }
{
    let ref0 = Planes {
        y: y0,
        u: u0,
        v: v0,
    };
    let ref1 = Planes {
        y: y1,
        u: u1,
        v: v1,
    };
    let references = References {
        ref0,
        ref1,
        col_mv: collocated(has_col, col_mv),
    };
    let mut target = PlanesMut { y, u, v };
    evc_replay::evc_trace_replay(trace, &references, &mut target)
}

// The movement of a picture's camera, by its motion map and unit words.
#[unsafe(no_mangle)]
pub extern "C" fn evc_camera_motion(
    pic_w: u32,
    pic_h: u32,
    map_mv: &[i16],
    map_scu: &[u32],
) -> EvcCamera
    ensures { result ≡ camera_motion pic_w pic_h map_mv.now map_scu.now }
{
    EvcCamera::from(evc_camera::camera_motion(pic_w, pic_h, map_mv, map_scu))
}
