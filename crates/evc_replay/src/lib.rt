#![tactic(auto)]

ghost use Rattle.std.specs.Prelude.{◌≡◌, false, IfOk, ◌≤◌, length};
ghost use Rattle.evc_def.specs.Refusals.{code_of};
ghost use Rattle.evc_map.specs.Maps.{is_present, numbers_of};
ghost use Rattle.evc_trace.specs.Format.{header_len, count_len, header_of};
ghost use Rattle.evc_record.specs.Record.{planes_of, target_of, SamePlanes, picture_short, source_of};
ghost use Rattle.evc_replay.specs.Replay.{answer_in, header_code, records_from, applied, replayed};
ghost use Rattle.evc_replay.specs.Counts.{finished, counted_over, replayed_counts, counts_in};

use evc_clip::EvcMoved;
use evc_counts::MovedCounts;
use evc_def::{Picture, Refusal};
use evc_mc::PRED_LEN;
use evc_record::{PlanesMut, References, Source};
use evc_trace::{HEADER_LEN, RECORD_LEN, TraceHeader};

#[repr(C)]
#[derive(Clone, Copy)]
pub struct EvcReplay {
    pub code: u32,
    pub index: u64,
    pub across_low: u64,
    pub across_high: u64,
    pub down_low: u64,
    pub down_high: u64,
}

// How replay ended, at which index, and what it had counted by then.
fn answer(ended: Result<(), Refusal>, index: u64, c: MovedCounts) -> EvcReplay
    ensures { (answer_in result ≡ record { code = code_of ended; index = index }) × (counts_in result ≡ c) }
{
    EvcReplay {
        code: evc_def::code(ended),
        index,
        across_low: c.across_low,
        across_high: c.across_high,
        down_low: c.down_low,
        down_high: c.down_high,
    }
}

// The records one after another. No `?`: index and counts go with a refusal. Two blocks of fixed memory: no heap in the archive.
fn replay_records(from: &Source, trace: &[u8], target: &mut PlanesMut) -> EvcReplay
    requires long_enough { picture_short from.now.header.pic_w from.now.header.pic_h (target_of target.old) ≡ false }
    requires has_header { header_len count_len ≤ length trace.now }
    ensures target_after { let e = source_of from.now in
        record { answer = answer_in result; target = target_of target.new } ≡ applied e (records_from trace.now (header_len count_len)) 0 (target_of target.old) }
    ensures counts { let e = source_of from.now in
        counts_in result ≡ counted_over e (finished e (records_from trace.now (header_len count_len))) }
    ensures same_planes { SamePlanes target.old target.new }
{
    let mut pred0 = [0u16; PRED_LEN];
    let mut pred1 = [0u16; PRED_LEN];
    // Counted, not by `enumerate`: behind the last record it is the answer's index too.
    let mut index: u64 = 0;
    let mut counts = MovedCounts::default();
    for record in trace[HEADER_LEN..].chunks(RECORD_LEN) {
        let moved = match evc_record::replay_record(from, record, target, &mut pred0, &mut pred1) {
            Ok(moved) => moved,
            Err(refusal) => return answer(Err(refusal), index, counts),
        };
        let moved0 = EvcMoved::from(moved.moved0);
        let moved1 = EvcMoved::from(moved.moved1);
        counts = counts.with_lists(moved0, moved1);
        index += 1;
    }
    answer(Ok(()), index, counts)
}

fn checked_header(
    trace: &[u8],
    references: &References,
    target: &PlanesMut,
) -> Result<TraceHeader, Refusal>
    ensures code { let p = planes_of references.now.ref0 in
        let q = planes_of references.now.ref1 in
        let col_mv = references.now.col_mv in
        code_of result ≡ header_code trace.now p q (is_present col_mv) (numbers_of col_mv) (target_of target.now) }
    ensures value { IfOk result (λ h. h ≡ header_of count_len trace.now) }
{
    if trace.len() < HEADER_LEN {
        return Err(Refusal::Incomplete);
    }
    if !evc_trace::is_trace(trace) {
        return Err(Refusal::Mark);
    }
    let h = evc_trace::read_header(trace);
    let pic = Picture::new(h.pic_w, h.pic_h)?;
    let References { ref0, ref1, col_mv } = *references;
    if ref0.are_short(pic)
        | ref1.are_short(pic)
        | target.are_short(pic)
        | evc_map::col_short(pic, col_mv)
    {
        return Err(Refusal::Buffer);
    }
    Ok(h)
}

pub fn evc_trace_replay(trace: &[u8], references: &References, target: &mut PlanesMut) -> EvcReplay
    ensures target_after { let p = planes_of references.now.ref0 in
        let q = planes_of references.now.ref1 in
        let col_mv = references.now.col_mv in
        record { answer = answer_in result; target = target_of target.new } ≡ replayed trace.now p q (is_present col_mv) (numbers_of col_mv) (target_of target.old) }
    ensures counts { let p = planes_of references.now.ref0 in
        let q = planes_of references.now.ref1 in
        let col_mv = references.now.col_mv in
        counts_in result ≡ replayed_counts trace.now p q (is_present col_mv) (numbers_of col_mv) (target_of target.old) }
    ensures same_planes { SamePlanes target.old target.new }
{
    let header = match checked_header(trace, references, target) {
        Ok(header) => header,
        Err(refusal) => return answer(Err(refusal), 0, MovedCounts::default()),
    };
    let from = Source {
        header,
        references: *references,
    };
    replay_records(&from, trace, target)
}
