//! The four paths of one-plane prediction, by the directions that are filtered: across and down.
#![tactic(auto)]

ghost use Rattle.std.specs.Prelude.{◌≡◌, true, cond, ℕ, ◌+◌, ◌*◌, ◌<◌, ◌≤◌, length, get_or};
ghost use Rattle.evc_int.specs.Lists.{with_row, with_block};
ghost use Rattle.evc_plane.specs.Planes.{side_of};
ghost use Rattle.evc_filter.specs.Filter.{phases, reach, interpolated, interpolated_twice};
ghost use Rattle.evc_lanes.specs.Inner.{is_row_width};
ghost use Rattle.evc_paths.specs.Inner.{Covers, step_of, along, filters};

use evc_blocks::Layout;
use evc_filter::{First, Second, Single};
use evc_plane::{PlaneSlice, PlaneType};

#[derive(Clone, Copy, PartialEq, Eq)]
pub enum Direction {
    Across,
    Down,
}

// The Rust's evc_mc_l_00, _n0 and _0n, and _nn.
#[derive(Clone, Copy, PartialEq, Eq)]
pub enum Path {
    Whole,
    One(Direction),
    Both,
}

impl Path {
    pub fn filters(self, direction: Direction) -> bool
        ensures { result ≡ filters self direction }
    {
        match self {
            Path::Whole => false,
            Path::One(filtered) => filtered == direction,
            Path::Both => true,
        }
    }
}

// Through an array: by `copy_from_slice` whole samples take up to 1.4 times as long (luma 32 by 32: 232 against 165 ns). The loop
// is that of `sample_row` (evc_lanes).
fn copy<const N: usize>(s: &[u16], at: usize, d: &mut [u16], to: usize)
    requires { (at + N ≤ length s.now) × (to + N ≤ length d.old) }
    ensures { d.new ≡ with_row d.old to N (λ (x : ℕ). get_or s.now (at + x) 0) }
{
    let mut numbers = [0; N];
    for x in 0..N {
        numbers[x] = s[at + x];
    }
    evc_lanes::put(d, to, &numbers);
}

pub fn copy_row(s: &[u16], n: usize, d: &mut [u16], to: usize)
    requires { (n ≤ length s.now) × (to + n ≤ length d.old) × (is_row_width n ≡ true) }
    ensures { d.new ≡ with_row d.old to n (λ (x : ℕ). get_or s.now x 0) }
{
    match n {
        2 => copy::<2>(s, 0, d, to),
        4 => copy::<4>(s, 0, d, to),
        // Not a counted loop, of which the optimizer makes a call of the C library for each row: tried with `copy_from_slice`, 8 by 8
        // took 1.6 times the time.
        _ => {
            let mut x = 0;
            while x + 8 <= n {
                copy::<8>(s, x, d, to + x);
                x += 8;
            }
        }
    }
}

// ---- w and h are plain here and below: whole samples and one direction take any height, so a type with a block's sides would ask more of
// callers; dx and dy as a struct with the fact that they are phases would be made for `evc_mc_nn` and taken apart in `columns`

// By value, since it is built into its caller: lent, the window is read again for each row (luma copy 4x16 executes 1.4 times the
// instructions). What is not built in is lent it. Rows by number: `chunks` asks for a stride above 0, which callers need not give.
pub fn evc_mc_00(window: PlaneSlice, w: usize, h: usize, pred: &mut [u16])
    requires { (window.at + h * window.stride + w ≤ length window.plane.now + window.stride) × (h * w ≤ length pred.old) × (is_row_width w ≡ true) }
    ensures { pred.new ≡ with_block pred.old 0 w w h (λ (y x : ℕ). get_or window.entry.plane.now (window.entry.at + y * window.entry.stride + x) 0) }
{
    for y in 0..h {
        copy_row(window.row(y), w, pred, y * w);
    }
}

// 1, by a sum that the optimizer does not know: see evc_blocks.
fn unit(h: usize) -> usize
    requires { h ≤ 64 }
    ensures { result ≡ 1 }
{
    1 + h / 128
}

// MC_IBUF_PAD_L, MC_IBUF_PAD_C: how many rows more the first stage has.
pub fn rows_more(t: PlaneType) -> usize
    ensures { result ≡ reach t }
{
    match t {
        PlaneType::Y => 5,
        PlaneType::UV => 3,
    }
}

// How far apart the samples under the taps of a direction lie.
fn step(window: PlaneSlice, direction: Direction) -> usize
    ensures { result ≡ step_of direction window.entry.stride }
{
    match direction {
        Direction::Across => 1,
        Direction::Down => window.stride,
    }
}

// One direction. By groups of eight columns; a block of 4 or 2 columns is one group. Groups by number, as the examined strips, for which
// `step_by` took 1.23 of the time (evc_samples).
pub fn evc_mc_one(
    t: PlaneType,
    window: PlaneSlice,
    direction: Direction,
    w: usize,
    h: usize,
    phase: usize,
    pred: &mut [u16],
)
    requires covers { Covers window (w + along direction (reach t) 0) (h + along direction 0 (reach t)) }
    requires room { h * w ≤ length pred.old }
    requires sizes { (is_row_width w ≡ true) × (w ≤ 64) × (0 < h) × (phase < phases t) × (window.stride ≤ 65535) }
    ensures { pred.new ≡ with_block pred.old 0 w w h (λ (y x : ℕ). interpolated t phase window.entry.plane.now (window.entry.at + y * window.entry.stride + x) (step_of direction window.entry.stride)) }
{
    let f = evc_filter::filter_of(t, step(window, direction), phase);
    let from = Layout {
        at: window.at,
        stride: window.stride,
    };
    let to = Layout { at: 0, stride: w };
    if w < 8 {
        evc_blocks::sample_block::<Single>(window.plane, from, w, h, f, pred, to, 1);
        return;
    }
    // Called at two places, the loop over the rows is not built into this function, where it has 5 additions more:
    // a block of 64 by 64 takes up to a tenth longer.
    if w == 8 {
        evc_blocks::sample_rows::<Single, 8>(window.plane, from, h, f, pred, to, 1);
        return;
    }
    for group in 0..w / 8 {
        let cg = 8 * group;
        let from = Layout {
            at: window.at + cg,
            stride: window.stride,
        };
        let to = Layout { at: cg, stride: w };
        evc_blocks::sample_rows::<Single, 8>(window.plane, from, h, f, pred, to, 1);
    }
}

// n columns of a block: the first stage goes through m, n numbers a row. Those of a narrow block lie one after the other, as its samples do, so
// that the second stage goes over them in rows of eight; a block of 2 by 2 has but four.
fn columns(
    t: PlaneType,
    window: &PlaneSlice,
    n: usize,
    h: usize,
    dx: usize,
    dy: usize,
    m: &mut [u16],
    pred: &mut [u16],
    to: usize,
    w: usize,
)
    requires covers { Covers window.now (n + reach t) (h + reach t) }
    requires room { (to + h * w + n ≤ length pred.old + w) × (n < 8 → w ≡ n) }
    requires sizes { (is_row_width n ≡ true) × (n ≤ 8) × (is_row_width h ≡ true) × (h ≤ 64) × (dx < phases t) × (dy < phases t) × ((h + reach t) * 8 ≤ length m.old) }
    ensures { pred.new ≡ with_block pred.old to w n h (λ (y x : ℕ). interpolated_twice t dx dy window.now.plane.now (window.now.at + y * window.now.stride + x) window.now.stride) }
{
    let one = unit(h);
    let first = evc_filter::filter_of(t, 1, dx);
    let rows = h + rows_more(t);
    let from = Layout {
        at: window.at,
        stride: window.stride,
    };
    let between = Layout { at: 0, stride: n };
    evc_blocks::sample_block::<First>(window.plane, from, n, rows, first, m, between, one);
    let lanes = if h * n < 8 { 4 } else { 8 };
    let second = evc_filter::filter_of(t, n, dy);
    let width = if n < 8 { lanes } else { w };
    let from = Layout {
        at: 0,
        stride: lanes,
    };
    let to = Layout {
        at: to,
        stride: width,
    };
    evc_blocks::sample_block::<Second>(m, from, lanes, h * n / lanes, second, pred, to, one);
}

// By groups of eight columns, as the Rust, by number as in `evc_mc_one`, through an array of N numbers.
fn groups<const N: usize>(
    t: PlaneType,
    window: &PlaneSlice,
    w: usize,
    h: usize,
    dx: usize,
    dy: usize,
    pred: &mut [u16],
)
    requires covers { Covers window.now (w + reach t) (h + reach t) }
    requires room { h * w ≤ length pred.old }
    requires sizes { (is_row_width w ≡ true) × (w ≤ 64) × (is_row_width h ≡ true) × (h ≤ 64) × (dx < phases t) × (dy < phases t) × ((h + reach t) * 8 ≤ N) }
    requires few { N ≤ 552 }
    ensures { pred.new ≡ with_block pred.old 0 w w h (λ (y x : ℕ). interpolated_twice t dx dy window.now.plane.now (window.now.at + y * window.now.stride + x) window.now.stride) }
{
    let mut intermediate = [0u16; N];
    // With one loop for both, the number of columns not a constant, a block of 4 or 2 columns takes a tenth longer.
    if w < 8 {
        columns(t, window, w, h, dx, dy, &mut intermediate, pred, 0, w);
        return;
    }
    for group in 0..w / 8 {
        let cg = 8 * group;
        let part = PlaneSlice {
            at: window.at + cg,
            ..*window
        };
        columns(t, &part, 8, h, dx, dy, &mut intermediate, pred, cg, w);
    }
}

pub fn evc_mc_nn(
    t: PlaneType,
    window: &PlaneSlice,
    w: usize,
    h: usize,
    dx: usize,
    dy: usize,
    pred: &mut [u16],
)
    requires covers { Covers window.now (w + reach t) (h + reach t) }
    requires room { h * w ≤ length pred.old }
    requires sizes { (is_row_width w ≡ true) × (w ≤ 64) × (is_row_width h ≡ true) × (h ≤ side_of t 64) × (dx < phases t) × (dy < phases t) }
    ensures { pred.new ≡ with_block pred.old 0 w w h (λ (y x : ℕ). interpolated_twice t dx dy window.now.plane.now (window.now.at + y * window.now.stride + x) window.now.stride) }
{
    // Zeroing 552 numbers takes a tenth of the time of a block of 8 rows.
    if h <= 8 {
        groups::<104>(t, window, w, h, dx, dy, pred);
        return;
    }
    match t {
        PlaneType::Y => groups::<552>(t, window, w, h, dx, dy, pred),
        PlaneType::UV => groups::<280>(t, window, w, h, dx, dy, pred),
    }
}
