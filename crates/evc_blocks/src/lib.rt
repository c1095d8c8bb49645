#![tactic(auto)]

ghost use Rattle.std.specs.Prelude.{◌≡◌, true, ℕ, ◌+◌, ◌*◌, ◌<◌, ◌≤◌, length};
ghost use Rattle.evc_int.specs.Lists.{with_block};
ghost use Rattle.evc_lanes.specs.Inner.{is_row_width};
ghost use Rattle.evc_blocks.specs.Inner.{Rows};

use evc_filter::{Filter, Stage};

// Where rows lie in a slice: the place of the first one, and how far apart they are.
#[derive(Clone, Copy)]
pub struct Layout {
    pub at: usize,
    pub stride: usize,
}

// Rows of N samples of a stage.
//
// `one` is 1: where rows lie one after the other, a step that the optimizer does not know keeps it from widening the loop over the rows. As a
// `for` over them, luma 64x64 in both directions takes 2.8 times as long.
pub fn sample_rows<S: Stage, const N: usize>(
    s: &[u16],
    from: Layout,
    h: usize,
    f: Filter,
    d: &mut [u16],
    to: Layout,
    one: usize,
)
    requires { Rows S.most N from.stride h s.now from.at f.offsets f.taps × (to.at + h * to.stride + N ≤ length d.old + to.stride) × (one ≡ 1) }
    ensures { d.new ≡ with_block d.old to.at to.stride N h (λ (y x : ℕ). S.value s.now (from.at + y * from.stride + x) f.offsets f.taps) }
{
    let mut y = 0;
    while y < h {
        evc_lanes::sample_row::<S, N>(&*s, from.at + y * from.stride, f, d, to.at + y * to.stride);
        y += one;
    }
}

// A block of 2, 4 or 8 columns. By ranges: where the optimizer knows a narrow width, luma 4x4 across takes 515 instructions for 502.
pub fn sample_block<S: Stage>(
    s: &[u16],
    from: Layout,
    n: usize,
    h: usize,
    f: Filter,
    d: &mut [u16],
    to: Layout,
    one: usize,
)
    requires { Rows S.most n from.stride h s.now from.at f.offsets f.taps × (to.at + h * to.stride + n ≤ length d.old + to.stride) × (one ≡ 1) × (is_row_width n ≡ true) × (n ≤ 8) }
    ensures { d.new ≡ with_block d.old to.at to.stride n h (λ (y x : ℕ). S.value s.now (from.at + y * from.stride + x) f.offsets f.taps) }
{
    match n {
        0..4 => sample_rows::<S, 2>(s, from, h, f, d, to, one),
        4..8 => sample_rows::<S, 4>(s, from, h, f, d, to, one),
        _ => sample_rows::<S, 8>(s, from, h, f, d, to, one),
    }
}
