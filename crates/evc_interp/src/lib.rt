#![tactic(auto)]

ghost use Rattle.std.specs.Prelude.{◌≡◌, true, ◌||◌, ltb, ◌+◌, ◌*◌, ◌<◌, ◌≤◌, pos, length};
ghost use Rattle.evc_int.specs.Lists.{with_block};
ghost use Rattle.evc_def.specs.Refusals.{code_of};
ghost use Rattle.evc_def.specs.Places.{given_place};
ghost use Rattle.evc_plane.specs.Planes.{plane_len};
ghost use Rattle.evc_filter.specs.Filter.{lead};
ghost use Rattle.evc_paths.specs.Inner.{along, filters, is_across, is_down, path_of};
ghost use Rattle.evc_interp.specs.Prediction.{phase_of, pel_of, is_filtered, start_of, window_of, is_side, window_exceeds, mc_plane_code, mc_plane_after};
ghost use Rattle.evc_interp.specs.Inner.{position_of, Readable, sample_from};

use evc_def::{EvcMv, Pel, Picture, Qpel, QpelPlace, Refusal};
use evc_paths::{Direction, Path};
use evc_plane::{PlaneSlice, PlaneType};

// ---- path, phase and whole sample

fn pel(t: PlaneType, z: Qpel) -> Pel
    ensures { result.0 ≡ pel_of t z.0 }
{
    match t {
        PlaneType::Y => z.pel(),
        PlaneType::UV => z.chroma_pel(),
    }
}

fn phase(t: PlaneType, z: Qpel) -> usize
    ensures { result ≡ phase_of t z.0 }
{
    match t {
        PlaneType::Y => z.phase(),
        PlaneType::UV => z.chroma_phase(),
    }
}

// By a component of the original vector.
fn is_filtered(t: PlaneType, mv: i16) -> bool
    ensures { result ≡ is_filtered t mv }
{
    phase(t, Qpel::from(mv)) != 0
}

fn lead(t: PlaneType) -> i32
    ensures { result ≡ pos (lead t) }
{
    match t {
        PlaneType::Y => 2,
        PlaneType::UV => 1,
    }
}

// Where a path starts in a direction: the lead before its block, if it is filtered.
fn start(t: PlaneType, path: Path, direction: Direction, z: Qpel) -> Pel
    ensures { result.0 ≡ start_of t (filters path direction) z.0 }
{
    let at = pel(t, z);
    if path.filters(direction) {
        Pel(at.0 - lead(t))
    } else {
        at
    }
}

fn window(t: PlaneType, pic: Picture, path: Path, gmv: QpelPlace) -> usize
    ensures { result ≡ window_of t pic.w pic.h (is_across path) (is_down path) gmv }
{
    let x = start(t, path, Direction::Across, gmv.x);
    let y = start(t, path, Direction::Down, gmv.y);
    evc_plane::window_start(t, pic, x, y)
}

fn path_of(t: PlaneType, ori_mv: EvcMv) -> Path
    ensures { result ≡ path_of (is_filtered t ori_mv.x) (is_filtered t ori_mv.y) }
{
    match (is_filtered(t, ori_mv.x), is_filtered(t, ori_mv.y)) {
        (false, false) => Path::Whole,
        (true, false) => Path::One(Direction::Across),
        (false, true) => Path::One(Direction::Down),
        (true, true) => Path::Both,
    }
}

// Where a block is predicted from, and how.
#[derive(Clone, Copy)]
pub struct Position {
    pub stride: usize,
    pub at: usize,
    pub path: Path,
    // The phases, under the Rust's names.
    pub dx: usize,
    pub dy: usize,
}

impl Position {
    fn phase(&self, direction: Direction) -> usize
        ensures { result ≡ along direction self.now.dx self.now.dy }
    {
        match direction {
            Direction::Across => self.dx,
            Direction::Down => self.dy,
        }
    }
}

pub fn position_of(t: PlaneType, pic: Picture, ori_mv: EvcMv, gmv: QpelPlace) -> Position
    ensures { result ≡ position_of t pic.w pic.h ori_mv gmv }
{
    let path = path_of(t, ori_mv);
    Position {
        stride: evc_plane::plane_config(t, pic).stride,
        at: window(t, pic, path, gmv),
        path,
        dx: phase(t, gmv.x),
        dy: phase(t, gmv.y),
    }
}

// The block by its path. The position is lent: a copy at each call costs a block of 4 by 4 from two lists 5 % (docs/SPEED.md).
// Type and sides stay apart: one position serves cb and cr, and the paths take plain sides.
pub fn predict(t: PlaneType, p: &Position, w: usize, h: usize, plane: &[u16], pred: &mut [u16])
    requires { Readable t p.now w h plane.now × (h * w ≤ length pred.old) }
    ensures { pred.new ≡ with_block pred.old 0 w w h (sample_from t p.now plane.now) }
{
    let window = PlaneSlice {
        plane,
        stride: p.stride,
        at: p.at,
    };
    match p.path {
        Path::Whole => evc_paths::evc_mc_00(window, w, h, pred),
        Path::One(direction) => {
            evc_paths::evc_mc_one(t, window, direction, w, h, p.phase(direction), pred);
        }
        Path::Both => evc_paths::evc_mc_nn(t, &window, w, h, p.dx, p.dy, pred),
    }
}

// ---- the call

// Half of a block's side.
fn is_chroma_side(n: u32) -> bool
    ensures { result ≡ is_side PlaneType.UV n }
{
    if n > 32 {
        return false;
    }
    evc_def::is_block_side(2 * n)
}

fn is_side(t: PlaneType, n: u32) -> bool
    ensures { result ≡ is_side t n }
{
    match t {
        PlaneType::Y => evc_def::is_block_side(n),
        PlaneType::UV => is_chroma_side(n),
    }
}

// The window of the path of both directions, which is examined on every path; w and h are the block's.
#[derive(Clone, Copy)]
pub struct ExaminedWindow {
    pub t: PlaneType,
    pub pic: Picture,
    pub gmv: QpelPlace,
    pub w: u32,
    pub h: u32,
    pub ghost w_side: { is_side t w ≡ true },
    pub ghost h_side: { is_side t h ≡ true },
}

impl ExaminedWindow {
    pub fn exceeds(self, plane: &[u16]) -> bool
        requires { plane_len self.t self.pic.w self.pic.h ≤ length plane.now }
        ensures { result ≡ window_exceeds self.t self.pic.w self.pic.h self.gmv self.w self.h plane.now }
    {
        let c = evc_plane::plane_config(self.t, self.pic);
        let more = evc_paths::rows_more(self.t);
        evc_samples::window_exceeds(
            plane,
            window(self.t, self.pic, Path::Both, self.gmv),
            c.stride,
            self.w as usize + more,
            self.h as usize + more,
        )
    }
}

fn is_short(t: PlaneType, pic: Picture, w: u32, h: u32, plane: usize, pred: usize) -> bool
    requires { w * h ≤ 4096 }
    ensures { result ≡ ltb plane (plane_len t pic.w pic.h) || ltb pred (w * h) }
{
    (plane < evc_plane::plane_len(t, pic)) | (pred < (w * h) as usize)
}

// One plane of one type. Built into the call for each type, where its sizes are constants: luma 4x4 across 33.5 to 30.1 ns
// (docs/SPEED.md). The sides are not checked yet, so they are no type.
#[inline(always)]
fn mc_plane(
    t: PlaneType,
    pic: Picture,
    ori_mv: EvcMv,
    gmv: QpelPlace,
    w: u32,
    h: u32,
    plane: &[u16],
    pred: &mut [u16],
) -> Result<(), Refusal>
    ensures value { code_of result ≡ mc_plane_code t pic.w pic.h gmv w h plane.now pred.old }
    ensures pred_after { pred.new ≡ mc_plane_after t pic.w pic.h ori_mv gmv w h plane.now pred.old }
{
    if !(is_side(t, w) & is_side(t, h)) {
        return Err(Refusal::Block);
    }
    if is_short(t, pic, w, h, plane.len(), pred.len()) {
        return Err(Refusal::Buffer);
    }
    let p = position_of(t, pic, ori_mv, gmv);
    let examined = ExaminedWindow { t, pic, gmv, w, h };
    if examined.exceeds(plane) {
        return Err(Refusal::Sample);
    }
    predict(t, &p, w as usize, h as usize, plane, pred);
    Ok(())
}

// With the definitions in sight the check tells a refusal by the wrong number from one that is right: the edit `refusal_1_as_2`.
#[tactic(auto, unfolding(crate::specs::Prediction::mc_plane_code, crate::specs::Prediction::mc_plane_after, evc_def::specs::Codes::first_of))]
pub fn evc_mc_plane(
    t: PlaneType,
    pic_w: u32,
    pic_h: u32,
    ori_mv: EvcMv,
    gmv: EvcMv,
    w: u32,
    h: u32,
    plane: &[u16],
    pred: &mut [u16],
) -> Result<(), Refusal>
    ensures value { code_of result ≡ mc_plane_code t pic_w pic_h (given_place gmv) w h plane.now pred.old }
    ensures pred_after { pred.new ≡ mc_plane_after t pic_w pic_h ori_mv (given_place gmv) w h plane.now pred.old }
{
    let pic = Picture::new(pic_w, pic_h)?;
    let place = QpelPlace::from(gmv);
    match t {
        PlaneType::Y => mc_plane(PlaneType::Y, pic, ori_mv, place, w, h, plane, pred),
        PlaneType::UV => mc_plane(PlaneType::UV, pic, ori_mv, place, w, h, plane, pred),
    }
}
