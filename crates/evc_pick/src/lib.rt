//! One plane of a list, predicted into one of two lent blocks.
#![tactic(auto)]

ghost use Rattle.std.specs.Prelude.{◌≡◌, ◌+◌, ◌*◌, ◌≤◌, length, drop};
ghost use Rattle.std.specs.Borrow.{sem};
ghost use Rattle.evc_int.specs.Lists.{with_block};
ghost use Rattle.evc_interp.specs.Inner.{Readable, sample_from};
ghost use Rattle.evc_pick.specs.Inner.{by_block, both_end, once_ended};

use evc_interp::Position;
use evc_plane::PlaneType;

// One of the two lent blocks. It is not the list's number: list 1 goes to the first block where list 0 is not in use.
#[derive(Clone, Copy, PartialEq, Eq)]
pub enum PredBlock {
    First,
    Second,
}

// One picker handing back the part of either lent block, from the plane's offset on. Once the part has ended, both blocks have. Both blocks
// and the offset are arguments: it is the form that document 01 names (docs/DECISIONS.md, 43).
fn pick<'a>(
    pred0: &'a mut [u16],
    pred1: &'a mut [u16],
    block: PredBlock,
    offset: usize,
) -> &'a mut [u16]
    requires { offset ≤ length (by_block block pred0 pred1).now }
    ensures result_value { result.now ≡ drop offset (by_block block pred0.entry pred1.entry).now }
    ensures* once_ended { sem 𝓛 (once_ended result (both_end pred0.entry pred1.entry block offset)) }
{
    // In a `match` one arm would lend again, and the walk of the proof has arms alike.
    let pred = if let PredBlock::Second = block {
        pred1
    } else {
        pred0
    };
    &mut pred[offset..]
}

// One plane of a list to the picked block, at the plane's offset.
pub fn predict_component<'p, 'a>(
    t: PlaneType,
    p: &'p Position,
    w: usize,
    h: usize,
    plane: &'p [u16],
    pred0: &'a mut [u16],
    pred1: &'a mut [u16],
    block: PredBlock,
    offset: usize,
)
    requires readable { Readable t p.now w h plane.now }
    requires w_in_bounds { (offset + h * w ≤ length pred0.old) × (offset + h * w ≤ length pred1.old) }
    ensures pred0_after { pred0.new ≡ by_block block (with_block pred0.old offset w w h (sample_from t p.now plane.now)) pred0.old }
    ensures pred1_after { pred1.new ≡ by_block block pred1.old (with_block pred1.old offset w w h (sample_from t p.now plane.now)) }
{
    let pred = pick(pred0, pred1, block, offset);
    evc_interp::predict(t, p, w, h, plane, pred);
}
