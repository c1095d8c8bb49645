#![tactic(auto)]

ghost use Rattle.std.specs.Prelude.{List, ℕ, ◌≡◌, ◌+◌, ◌-◌, ◌*◌, ◌<◌, ◌≤◌, min, length, get_or, cond, ltb};
ghost use Rattle.evc_filter.specs.Filter.{phases};
ghost use Rattle.evc_filter.specs.Inner.{taps_of, offsets_of, Small, first_sum, whole_sum, second_sum, finished, Ordered, Bounded, Under, first_at, single_at, second_at};

use evc_plane::PlaneType;

// The sizes of a filter's taps, for sums a p - b q + 2 c x + 2 d y of 16 bits. That they are small (`Small`) stands in contracts: as a ghost
// field, the definition `taps_of` would hold its proof.
#[derive(Clone, Copy)]
pub struct Taps {
    pub a: u16,
    pub b: u16,
    pub c: u16,
    pub d: u16,
}

fn sizes(a: u16, b: u16, c: u16, d: u16) -> Taps
    ensures { result ≡ record { a = a; b = b; c = c; d = d } }
{
    Taps { a, b, c, d }
}

// By row: those of luma, then those of chroma. One match for both, which becomes a look-up; one in a constant array copies
// the array first, for which luma 4x4 across takes 522 instructions for 502.
#[tactic(auto, unfolding(crate::specs::Inner::taps_of))]
fn taps_at(row: usize) -> Taps
    requires { row < 12 }
    ensures { result ≡ cond (ltb row 4) (taps_of PlaneType.Y row) (taps_of PlaneType.UV (row - 4)) }
{
    match row {
        0 => sizes(0, 0, 32, 0),
        1 => sizes(1, 5, 26, 10),
        2 => sizes(2, 10, 20, 20),
        3 => sizes(1, 5, 10, 26),
        4 => sizes(0, 0, 32, 0),
        5 => sizes(0, 2, 29, 5),
        6 => sizes(0, 4, 26, 10),
        7 => sizes(0, 6, 23, 15),
        8 => sizes(0, 8, 20, 20),
        9 => sizes(0, 6, 15, 23),
        10 => sizes(0, 4, 10, 26),
        _ => sizes(0, 2, 5, 29),
    }
}

fn first_row(t: PlaneType) -> usize
    ensures { result + 4 ≡ phases t }
{
    match t {
        PlaneType::Y => 0,
        PlaneType::UV => 4,
    }
}

pub fn taps_of(t: PlaneType, phase: usize) -> Taps
    requires { phase < phases t }
    ensures { result ≡ taps_of t phase }
{
    taps_at(first_row(t) + phase)
}

// ---- the tap sums, by shifts and additions: the processor of the viewing table has no wide multiply

// n x, by additions. A loop and not a choice by n: the optimizer makes one product of 16 bits of it, and eight lanes stay one vector. By a
// choice luma across takes 10 times as long at 4x4, and 53 times at 64x64.
fn multiple(n: u16, x: u16) -> u16
    requires { n * x ≤ 65535 }
    ensures { result ≡ n * x }
{
    let mut sum = 0;
    for _ in 0..n {
        sum += x;
    }
    sum
}

// t x, from the digits of t to base 4: those of 26 are 1, 2 and 2. What is shifted is never above t x, so no bit is lost.
// The bounds are for the proof: callers then need no law on products.
fn times(t: u16, x: u16, t_max: u16, x_max: u16) -> u16
    requires { (t ≤ t_max) × (x ≤ x_max) × (t_max * x_max ≤ 65535) }
    ensures { (result ≡ t * x) × (result ≤ t_max * x_max) × (result ≤ t * x_max) × (result ≤ t_max * x) }
{
    let high = multiple(t >> 4, x);
    let middle = multiple((t >> 2) & 3, x);
    let low = multiple(t & 3, x);
    (((high << 2) + middle) << 2) + low
}

// The numbers under the taps: p is the sum of the outer pair and q of the inner one, x and y are the two in the middle. Each sum has bounds of
// its own for them, so they stand in its contract.
#[derive(Clone, Copy)]
struct Numbers {
    p: u16,
    q: u16,
    x: u16,
    y: u16,
}

// The tap sum of samples, >> 2, with 5120 and the rounding more.
fn rounded_sum(taps: Taps, n: Numbers, rounding: u16) -> u16
    requires small { Small taps }
    requires p_bound { (n.p ≤ 2046) × (n.q ≤ 2046) × (n.x ≤ 1023) × (n.y ≤ 1023) × (rounding ≤ 8) }
    ensures { (result ≡ first_sum taps n.p n.q n.x n.y + rounding) × (result ≤ 26603 + rounding) }
{
    (((times(taps.a, n.p, 2, 2046) + (20480 + multiple(4, rounding)) - times(taps.b, n.q, 10, 2046))
        >> 1)
        + times(taps.c, n.x, 32, 1023)
        + times(taps.d, n.y, 29, 1023))
        >> 1
}

// The first of two stages, which does not round. A single direction does: (sum + 32) >> 6 is ((sum >> 2) + 8) >> 4.
fn first_sum(taps: Taps, n: Numbers) -> u16
    requires small { Small taps }
    requires p_bound { (n.p ≤ 2046) × (n.q ≤ 2046) × (n.x ≤ 1023) × (n.y ≤ 1023) }
    ensures { (result ≡ first_sum taps n.p n.q n.x n.y) × (result ≤ 26603) }
{
    rounded_sum(taps, n, 0)
}

fn whole_sum(taps: Taps, n: Numbers, bias: u16) -> u16
    requires small { Small taps }
    requires p_bound { (n.p ≤ 831) × (n.q ≤ 831) × (n.x ≤ 415) × (n.y ≤ 415) × (10 * n.q ≤ bias) × (bias ≤ 8310) }
    ensures { (result ≡ whole_sum taps n.p n.q n.x n.y bias) × (result ≤ 43172) }
{
    times(taps.a, n.p, 2, 831)
        + (times(taps.c, n.x, 32, 415) << 1)
        + (times(taps.d, n.y, 29, 415) << 1)
        + bias
        - times(taps.b, n.q, 10, 831)
}

// The tap sum of the first stage's numbers, >> 6 and biased: each number is split at 6 bits, so that both sums fit 16. Field by field: by a
// function that applies a closure to each of the four, luma in both directions takes 1.09 of the time at 4x4, and 1.19 at 64x64.
fn second_sum(taps: Taps, n: Numbers) -> u16
    requires small { Small taps }
    requires p_bound { (n.p ≤ 53206) × (n.q ≤ 53206) × (n.x ≤ 26603) × (n.y ≤ 26603) }
    ensures { result ≡ second_sum taps n.p n.q n.x n.y }
{
    let above = Numbers {
        p: n.p >> 6,
        q: n.q >> 6,
        x: n.x >> 6,
        y: n.y >> 6,
    };
    let below = Numbers {
        p: n.p & 63,
        q: n.q & 63,
        x: n.x & 63,
        y: n.y & 63,
    };
    let high = whole_sum(taps, above, 8310);
    let low = whole_sum(taps, below, 1152);
    high + (low >> 6)
}

// Rounded down by 4 bits, less the bias, held to 0..1023. Both ends by a sum that is held to 16 bits: two instructions, where a minimum of four lanes takes three.
fn finish(n: u16, low: u16) -> u16
    requires { low ≤ 64512 }
    ensures { result ≡ finished low n }
{
    (n >> 4).saturating_add(64512 - low).saturating_sub(64512)
}

// ---- at a place

// Where the samples under the taps lie, from the first one on.
#[derive(Clone, Copy)]
pub struct Offsets {
    pub q0: usize,
    pub x: usize,
    pub y: usize,
    pub q1: usize,
    pub p1: usize,
}

pub fn offsets_of(t: PlaneType, step: usize) -> Offsets
    requires { step ≤ 65535 }
    ensures { result ≡ offsets_of t step }
{
    match t {
        PlaneType::Y => Offsets {
            q0: step,
            x: 2 * step,
            y: 3 * step,
            q1: 4 * step,
            p1: 5 * step,
        },
        PlaneType::UV => Offsets {
            q0: 0,
            x: step,
            y: 2 * step,
            q1: 3 * step,
            p1: 3 * step,
        },
    }
}

// A slice and a place, here and below: the next sample of a row is read from the next place, so a struct of both would be made for each.
fn under(s: &[u16], at: usize, o: Offsets) -> Numbers
    requires within { at + o.p1 < length s.now }
    requires ordered { Ordered o }
    requires bounded { Bounded 26603 s.now at o }
    ensures { result ≡ record {
      p = get_or s.now at 0 + get_or s.now (at + o.p1) 0;
      q = get_or s.now (at + o.q0) 0 + get_or s.now (at + o.q1) 0;
      x = get_or s.now (at + o.x) 0;
      y = get_or s.now (at + o.y) 0;
    } }
{
    Numbers {
        p: s[at] + s[at + o.p1],
        q: s[at + o.q0] + s[at + o.q1],
        x: s[at + o.x],
        y: s[at + o.y],
    }
}

// Where the samples under the taps lie, and the taps' sizes.
#[derive(Clone, Copy)]
pub struct Filter {
    pub offsets: Offsets,
    pub taps: Taps,
}

pub fn filter_of(t: PlaneType, step: usize, phase: usize) -> Filter
    requires { (step ≤ 65535) × (phase < phases t) }
    ensures { result ≡ record { offsets = offsets_of t step; taps = taps_of t phase } }
{
    Filter {
        offsets: offsets_of(t, step),
        taps: taps_of(t, phase),
    }
}

// What a stage of the interpolation makes of the samples under a filter.
pub trait Stage {
    ghost use Rattle.evc_filter.specs.declared.Offsets.{Offsets};
    ghost use Rattle.evc_filter.specs.declared.Taps.{Taps};

    // No sample under the taps is above it.
    ghost most: { ℕ };

    ghost value: { List ℕ → ℕ → Offsets → Taps → ℕ };

    fn sample(s: &[u16], at: usize, f: Filter) -> u16
        requires { Under most s.now at f.offsets f.taps }
        ensures { result ≡ value s.now at f.offsets f.taps };
}

// The first of two stages.
pub struct First;

impl Stage for First {
    ghost most = { 1023 };

    ghost value = { first_at };

    #[tactic(auto, unfolding(crate::specs::Inner::first_at))]
    fn sample(s: &[u16], at: usize, f: Filter) -> u16 {
        first_sum(f.taps, under(s, at, f.offsets))
    }
}

// The only stage of a single direction.
pub struct Single;

impl Stage for Single {
    ghost most = { 1023 };

    ghost value = { single_at };

    #[tactic(auto, unfolding(crate::specs::Inner::single_at, crate::specs::Inner::first_at))]
    fn sample(s: &[u16], at: usize, f: Filter) -> u16 {
        finish(rounded_sum(f.taps, under(s, at, f.offsets), 8), 320)
    }
}

// The second of two stages.
pub struct Second;

impl Stage for Second {
    ghost most = { 26603 };

    ghost value = { second_at };

    #[tactic(auto, unfolding(crate::specs::Inner::second_at))]
    fn sample(s: &[u16], at: usize, f: Filter) -> u16 {
        finish(second_sum(f.taps, under(s, at, f.offsets)), 840)
    }
}
