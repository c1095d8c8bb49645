#![tactic(auto)]

ghost use Rattle.std.specs.Prelude.{◌≡◌, ℕ, ◌+◌, ◌≤◌, length, get_or};
ghost use Rattle.evc_int.specs.Lists.{with_row};
ghost use Rattle.evc_lanes.specs.Inner.{Row};

use evc_filter::{Filter, Stage};

// ---- slices and places are arguments of their own: a struct of both would be made for each row, and read once

// N numbers, written one by one: as a copy of the array, four or two of them would be packed into one word first, and luma across takes 1.06
// of the time at 8x8, 1.1 at 4x4 and 1.16 at 64x64.
pub fn put<const N: usize>(d: &mut [u16], to: usize, numbers: &[u16; N])
    requires { to + N ≤ length d.old }
    ensures { d.new ≡ with_row d.old to N (λ (x : ℕ). get_or numbers.now x 0) }
{
    for x in 0..N {
        d[to + x] = numbers[x];
    }
}

// N samples of a stage: all of them are made before one is written, so that they are one vector; else luma across takes 2.4 times as long at
// 4x4, and 8.7 times at 64x64. By `array::from_fn`, as fast, the closure needs both clauses of `sample` again, where the loop needs none.
pub fn sample_row<S: Stage, const N: usize>(
    s: &[u16],
    at: usize,
    f: Filter,
    d: &mut [u16],
    to: usize,
)
    requires { Row S.most N s.now at f.offsets f.taps × (to + N ≤ length d.old) }
    ensures { d.new ≡ with_row d.old to N (λ (x : ℕ). S.value s.now (at + x) f.offsets f.taps) }
{
    let mut made = [0; N];
    for x in 0..N {
        made[x] = S::sample(s, at + x, f);
    }
    put(d, to, &made);
}
