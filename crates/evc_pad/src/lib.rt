#![tactic(auto)]

ghost use Rattle.std.specs.Prelude.{◌≡◌, IfOk, ◌⊎◌, ℕ, ◌+◌, ◌*◌, ◌<◌, ◌≤◌, length, replicate, get_or};
ghost use Rattle.evc_int.specs.Lists.{with_block};
ghost use Rattle.evc_def.specs.Refusals.{code_of};
ghost use Rattle.evc_plane.specs.Planes.{plane_len};
ghost use Rattle.evc_pad.specs.Padding.{padded, pad_code, pad_after};

use evc_def::{Picture, Refusal};
use evc_plane::{PlaneType, plane_config, plane_len};

// The library's `fill` writes the last sample by itself, for which the border of a small plane took a quarter longer.
fn fill(row: &mut [u16], fill_val: u16)
    ensures { row.new ≡ replicate (length row.old) fill_val }
{
    for x in row.iter_mut() {
        *x = fill_val;
    }
}

// In each of h rows, the first one at `base`: the n samples from column x on become the one at column `from`. By index: of what a loop over
// `chunks_exact_mut` wrote, a proof knows nothing. Of a plane's sizes it takes two, so its numbers stay plain.
fn pad_columns(
    plane: &mut [u16],
    base: usize,
    stride: usize,
    h: usize,
    x: usize,
    n: usize,
    from: usize,
)
    requires stride_in_bounds { (base + h * stride ≤ length plane.old) × (x + n ≤ stride) × (from < stride) }
    requires fact { (from < x) ⊎ (x + n ≤ from) }
    ensures { plane.new ≡ with_block plane.old (base + x) stride n h (λ (y _ : ℕ). get_or plane.old (base + y * stride + from) 0) }
{
    for y in 0..h {
        let row = base + y * stride;
        let fill_val = plane[row + from];
        fill(&mut plane[row + x..row + x + n], fill_val);
    }
}

// The row at `from`, copied whole to the h rows at `to`. By index: `copy_within` takes the whole plane, so no iterator can hold its rows.
fn pad_rows(plane: &mut [u16], stride: usize, from: usize, to: usize, h: usize)
    requires stride_in_bounds { (from + stride ≤ length plane.old) × (to + h * stride ≤ length plane.old) }
    requires fact { (from + stride ≤ to) ⊎ (to + h * stride ≤ from) }
    ensures { plane.new ≡ with_block plane.old to stride stride h (λ (_ x : ℕ). get_or plane.old (from + x) 0) }
{
    for y in 0..h {
        plane.copy_within(from..from + stride, to + y * stride);
    }
}

// Left, right to the stride, then whole rows up and down.
fn pad_plane(t: PlaneType, pic: Picture, plane: &mut [u16])
    requires { plane_len t pic.w pic.h ≤ length plane.old }
    ensures { plane.new ≡ padded t pic.w pic.h plane.old }
{
    let c = plane_config(t, pic);
    let stride = c.stride;
    let pad = c.yorigin;
    let right = c.xorigin + c.width;
    let first = pad * stride;
    let bottom = first + c.height * stride;
    pad_columns(plane, first, stride, c.height, 0, c.xorigin, c.xorigin);
    pad_columns(
        plane,
        first,
        stride,
        c.height,
        right,
        stride - right,
        right - 1,
    );
    pad_rows(plane, stride, first, 0, pad);
    pad_rows(plane, stride, bottom - stride, bottom, pad);
}

fn checked(t: PlaneType, pic_w: u32, pic_h: u32, plane: &[u16]) -> Result<Picture, Refusal>
    ensures code { code_of result ≡ pad_code t pic_w pic_h plane.now }
    ensures value { IfOk result (λ pic. (pic.w ≡ pic_w) × (pic.h ≡ pic_h)) }
{
    let pic = Picture::new(pic_w, pic_h)?;
    if plane.len() < plane_len(t, pic) {
        return Err(Refusal::Buffer);
    }
    let c = plane_config(t, pic);
    if evc_samples::exceeds(
        plane,
        c.yorigin * c.stride + c.xorigin,
        c.stride,
        c.width,
        c.height,
    ) {
        return Err(Refusal::Sample);
    }
    Ok(pic)
}

pub fn pad(t: PlaneType, pic_w: u32, pic_h: u32, plane: &mut [u16]) -> Result<(), Refusal>
    ensures value { code_of result ≡ pad_code t pic_w pic_h plane.old }
    ensures plane_after { plane.new ≡ pad_after t pic_w pic_h plane.old }
{
    let pic = checked(t, pic_w, pic_h, plane)?;
    pad_plane(t, pic, plane);
    Ok(())
}
