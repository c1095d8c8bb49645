#![tactic(auto)]

ghost use Rattle.std.specs.Prelude.{◌≡◌, ◌||◌, ◌+◌, ◌*◌, ◌<◌, ◌≤◌, length};
ghost use Rattle.std.specs.List.{list_any};
ghost use Rattle.evc_samples.specs.Samples.{too_large, row_exceeds, exceeds};

use evc_def::MAX_SAMPLE_VAL;
use evc_plane::PlaneSlice;
use std::simd::prelude::*;

// The test at a sample. Samples are gathered by an OR: it is above 1023 exactly if one of them is, by its bits from 10 up.
#[tactic(auto, unfolding(crate::specs::Samples::too_large))]
fn too_large(o: u16) -> bool
    ensures { result ≡ too_large o }
{
    o > MAX_SAMPLE_VAL
}

// ---- h rows of n samples, the rows `stride` apart and the first one at `at`
// Rows are counted: `chunks` and `step_by` ask for a stride above 0, which callers need not give. The five numbers stay apart: as a struct with
// the ghost field that they lie in the list, as fast, they read no plainer, since its literals may not end in `..` and name all fields.

// N samples from i on and N from j on are gathered at once: one vector over all rows.
fn gather_lanes<const N: usize>(o: Simd<u16, N>, s: &[u16], i: usize, j: usize) -> Simd<u16, N>
    requires { (length o ≡ N) × (i + N ≤ length s.now) × (j + N ≤ length s.now) }
    ensures { (length result ≡ N) × (list_any too_large result ≡ list_any too_large o.entry || (row_exceeds s.now i N || row_exceeds s.now j N)) }
{
    o | Simd::from_slice(&s[i..]) | Simd::from_slice(&s[j..])
}

// Rows of N to 2 N samples, each by its first N and its last N.
fn or_lanes<const N: usize>(s: &[u16], at: usize, stride: usize, n: usize, h: usize) -> u16
    requires { (at + h * stride + n ≤ length s.now + stride) × (N ≤ n) × (n ≤ 2 * N) }
    ensures { too_large result ≡ exceeds s.now at stride n h }
{
    let mut o = Simd::<u16, N>::splat(0);
    for y in 0..h {
        let i = at + y * stride;
        o = gather_lanes(o, s, i, i + n - N);
    }
    o.reduce_or()
}

// Wider rows, by strips of sixteen columns: the last one goes to the row's end, and (n - 1) / 16 begin before it. By `step_by(16)` over the
// columns, whole samples of 16x16 take 1.23 of the time.
fn or_strips(s: &[u16], at: usize, stride: usize, n: usize, h: usize) -> u16
    requires { (at + h * stride + n ≤ length s.now + stride) × (16 ≤ n) × (0 < h) }
    ensures { too_large result ≡ exceeds s.now at stride n h }
{
    let mut o = or_lanes::<8>(s, at + n - 16, stride, 16, h);
    for k in 0..(n - 1) / 16 {
        o |= or_lanes::<8>(s, at + 16 * k, stride, 16, h);
    }
    o
}

#[tactic(auto, using(crate::proofs::Samples::row_or))]
fn or_row(row: &[u16]) -> u16
    ensures { too_large result ≡ list_any too_large row.now }
{
    row.iter().fold(0, |o, x| o | *x)
}

// One row of the picture after the other.
fn or_rows(s: &[u16], at: usize, stride: usize, n: usize, h: usize) -> u16
    requires { at + h * stride + n ≤ length s.now + stride }
    ensures { too_large result ≡ exceeds s.now at stride n h }
{
    let window = PlaneSlice {
        plane: s,
        stride,
        at,
    };
    let mut o = 0;
    for y in 0..h {
        let row = window.row(y);
        o |= or_row(&row[..n]);
    }
    o
}

// A window, which is narrow: by lanes over all its rows.
fn or_window(s: &[u16], at: usize, stride: usize, n: usize, h: usize) -> u16
    requires { (at + h * stride + n ≤ length s.now + stride) × (4 ≤ n) × (0 < h) }
    ensures { too_large result ≡ exceeds s.now at stride n h }
{
    if n <= 8 {
        return or_lanes::<4>(s, at, stride, n, h);
    }
    if n <= 16 {
        return or_lanes::<8>(s, at, stride, n, h);
    }
    or_strips(s, at, stride, n, h)
}

// Whether a sample above 1023 is among them. Built into its callers,
// small blocks take up to 2 ns more. `&*s` hands on pointer and length in registers (docs/DECISIONS.md, 52).
#[inline(never)]
pub fn window_exceeds(s: &[u16], at: usize, stride: usize, n: usize, h: usize) -> bool
    requires { (at + h * stride + n ≤ length s.now + stride) × (4 ≤ n) × (0 < h) }
    ensures { result ≡ exceeds s.now at stride n h }
{
    too_large(or_window(&*s, at, stride, n, h))
}

// The same of a picture, which is read row after row.
pub fn exceeds(s: &[u16], at: usize, stride: usize, n: usize, h: usize) -> bool
    requires { at + h * stride + n ≤ length s.now + stride }
    ensures { result ≡ exceeds s.now at stride n h }
{
    too_large(or_rows(s, at, stride, n, h))
}
