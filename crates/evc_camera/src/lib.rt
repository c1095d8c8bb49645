#![tactic(auto)]

ghost use Rattle.std.specs.Prelude.{◌≡◌, cond, true, ◌+◌, ◌*◌, ◌<◌, ◌≤◌, length, pos, nat_abs, ◌+ℤ◌};
ghost use Rattle.evc_map.specs.Maps.{most_units, mv_len};
ghost use Rattle.evc_camera.specs.Camera.{is_counted, with_mv, sums_of, mean_of, motion_of, answer, answer_of, camera_motion};
ghost use Rattle.evc_camera.specs.Inner.{Within, AllCounted};

use evc_def::{EvcMv, Picture, RefList, Refusal, Scu};

// The units that count, and the whole sums of their list 0 vectors, in quarter samples. How large they are stands in contracts
// (`Within`): a ghost field would put a proof into the definition `sums_of`.
#[derive(Clone, Copy, Default)]
pub struct Sums {
    pub units: u64,
    pub x: i64,
    pub y: i64,
}

// No unit counts; both sums are zero; the mean across and down, in luma samples.
#[derive(Clone, Copy)]
pub enum CameraMotion {
    None,
    Still,
    Moving(f64, f64),
}

// kind: 0 no unit counts, 1 still, 2 moving; x and y are +0.0 unless it is 2.
#[repr(C)]
#[derive(Clone, Copy)]
pub struct EvcCamera {
    pub code: u32,
    pub kind: u32,
    pub x: f64,
    pub y: f64,
}

// ---- sums

fn add(sum: i64, v: i16) -> i64
    requires { nat_abs sum ≤ 32768 * most_units }
    ensures { (result ≡ sum +ℤ v) × (nat_abs result ≤ nat_abs sum + 32768) }
{
    sum + v as i64
}

// A component where its unit counts, else 0: a choice of numbers, since with a branch any words take twice the time (docs/SPEED.md,
// 'Camera movement').
fn component(counted: bool, v: i16) -> i16
    ensures { result ≡ cond counted v (pos 0) }
{
    if counted { v } else { 0 }
}

fn add_mv(s: Sums, counted: bool, mv: EvcMv) -> Sums
    requires { Within s most_units }
    ensures { (result ≡ cond counted (with_mv s mv) s) × (nat_abs result.x ≤ nat_abs s.x + 32768) × (nat_abs result.y ≤ nat_abs s.y + 32768) }
{
    Sums {
        units: s.units + counted as u64,
        x: add(s.x, component(counted, mv.x)),
        y: add(s.y, component(counted, mv.y)),
    }
}

// Units that are first asked together whether all of them count: their vectors are then added without a look at each word. The
// loops go by index: slices side by side take 2.0 to 3.0 times the time by `chunks`, and up to 1.12 as arrays by `as_chunks`
// (docs/SPEED.md, 'Camera movement').
const RUN: usize = 16;

// The maps of a picture of so many units.
#[derive(Drop)]
struct UnitMaps<'a> {
    map_mv: &'a [i16],
    map_scu: &'a [u32],
    units: usize,
    ghost covers: { (units ≤ most_units) × (units ≤ length map_scu.now) × (mv_len * units ≤ length map_mv.now) },
}

impl UnitMaps<'_> {
    fn counts(&self, i: usize) -> bool
        requires { i < self.now.units }
        ensures { result ≡ is_counted self.now.map_scu.now i }
    {
        evc_map::mcu_at(self.map_scu, Scu(i)).IS_COD_NIF()
    }

    // Whether every unit of these counts: no stop at the first that does not, so no branch for each. By `Iterator::all` the call
    // takes 1.5 to 2.0 times the time, by `fold` up to 1.28.
    fn all_count(&self, from: usize, to: usize) -> bool
        requires { (from ≤ to) × (to ≤ self.now.units) }
        ensures { result ≡ true → AllCounted self.now.map_scu.now from to }
    {
        let mut all = true;
        for i in from..to {
            all = all & self.counts(i);
        }
        all
    }

    // The sums over the units before `from` become those over the units before `to`; `all` if those between are known to count. Two
    // loops in place of `all` take 1.11 to 1.29 times the time.
    fn add_units(&self, s: Sums, from: usize, to: usize, all: bool) -> Sums
        requires from_le_to { (from ≤ to) × (to ≤ self.now.units) }
        requires s_value { (s ≡ sums_of self.now.map_mv.now self.now.map_scu.now from) × Within s from × (all ≡ true → AllCounted self.now.map_scu.now from to) }
        ensures { (result ≡ sums_of self.now.map_mv.now self.now.map_scu.now to) × Within result to }
    {
        let mut sums = s;
        for i in from..to {
            let counted = all | self.counts(i);
            let mv = evc_map::mv_at(self.map_mv, Scu(i), RefList::List0);
            sums = add_mv(sums, counted, mv);
        }
        sums
    }

    fn add_run(&self, s: Sums, from: usize) -> Sums
        requires from_bound { from + 16 ≤ self.now.units }
        requires s_value { (s ≡ sums_of self.now.map_mv.now self.now.map_scu.now from) × Within s from }
        ensures { (result ≡ sums_of self.now.map_mv.now self.now.map_scu.now (from + 16)) × Within result (from + 16) }
    {
        let all = self.all_count(from, from + RUN);
        self.add_units(s, from, from + RUN, all)
    }

    fn sums(&self) -> Sums
        ensures { (result ≡ sums_of self.now.map_mv.now self.now.map_scu.now self.now.units) × Within result most_units }
    {
        let runs = self.units / RUN;
        let mut s = Sums::default();
        for k in 0..runs {
            s = self.add_run(s, k * RUN);
        }
        self.add_units(s, runs * RUN, self.units, false)
    }
}

// ---- the reading

// f64 holds the sum whole, and four times the count: one division, rounded once.
fn mean(sum: i64, units: u64) -> f64
    requires { (nat_abs sum ≤ 32768 * most_units) × (0 < units) × (units ≤ most_units) }
    ensures { result ≡ mean_of sum units }
{
    (sum as f64) / ((4 * units) as f64)
}

fn motion_of(s: Sums) -> CameraMotion
    requires { Within s most_units }
    ensures { result ≡ motion_of s }
{
    if s.units == 0 {
        return CameraMotion::None;
    }
    if (s.x == 0) & (s.y == 0) {
        return CameraMotion::Still;
    }
    CameraMotion::Moving(mean(s.x, s.units), mean(s.y, s.units))
}

impl From<CameraMotion> for EvcCamera {
    ghost from_gives = { λ m r. r ≡ answer 0 m };

    fn from(motion: CameraMotion) -> EvcCamera {
        let (kind, x, y) = match motion {
            CameraMotion::None => (0, 0.0, 0.0),
            CameraMotion::Still => (1, 0.0, 0.0),
            CameraMotion::Moving(x, y) => (2, x, y),
        };
        EvcCamera {
            code: 0,
            kind,
            x,
            y,
        }
    }
}

impl From<Result<CameraMotion, Refusal>> for EvcCamera {
    ghost from_gives = { λ motion camera. camera ≡ answer_of motion };

    fn from(motion: Result<CameraMotion, Refusal>) -> EvcCamera {
        match motion {
            Ok(motion) => EvcCamera::from(motion),
            Err(refusal) => EvcCamera {
                code: refusal.number(),
                ..EvcCamera::from(CameraMotion::None)
            },
        }
    }
}

// ---- the call

pub fn camera_motion(
    pic_w: u32,
    pic_h: u32,
    map_mv: &[i16],
    map_scu: &[u32],
) -> Result<CameraMotion, Refusal>
    ensures { answer_of result ≡ camera_motion pic_w pic_h map_mv.now map_scu.now }
{
    let pic = Picture::new(pic_w, pic_h)?;
    let sides = pic.sides();
    if evc_map::map_short(sides, map_mv.len()) | evc_map::words_short(sides, map_scu.len()) {
        return Err(Refusal::Buffer);
    }
    let maps = UnitMaps {
        map_mv,
        map_scu,
        units: evc_map::unit_count(sides).index(),
    };
    Ok(motion_of(maps.sums()))
}
