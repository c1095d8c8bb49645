#![tactic(auto)]

ghost use Rattle.std.specs.Prelude.{◌≡◌, ◌+◌, ◌*◌, ◌≤◌, length, drop};
ghost use Rattle.evc_plane.specs.Planes.{pad_of, origin_of, side_of, plane_len, config_of, start_at, window_start};

use evc_def::{PIC_PAD_SIZE_C, PIC_PAD_SIZE_L, Pel, Picture};

// ---- the sizes of Plane::new

// A call names it by a flag, `chroma`, which `plane_type` of evc_inter reads: a name says more there than `PlaneType::from(true)`.
#[derive(Clone, Copy, PartialEq, Eq)]
pub enum PlaneType {
    Y,
    UV,
}

#[derive(Clone, Copy)]
pub struct PlaneConfig {
    pub stride: usize,
    pub alloc_height: usize,
    pub width: usize,
    pub height: usize,
    pub xorigin: usize,
    pub yorigin: usize,
}

impl PlaneType {
    fn pad_size(self) -> usize
        ensures { result ≡ pad_of self }
    {
        match self {
            PlaneType::Y => PIC_PAD_SIZE_L,
            PlaneType::UV => PIC_PAD_SIZE_C,
        }
    }

    fn xorigin(self) -> usize
        ensures { result ≡ origin_of self }
    {
        self.pad_size().next_multiple_of(16)
    }

    // A plane's side, from the picture's.
    pub fn side(self, n: u32) -> usize
        ensures { result ≡ side_of self n }
    {
        match self {
            PlaneType::Y => n as usize,
            PlaneType::UV => (n / 2) as usize,
        }
    }
}

// A plane's type and its picture stay apart, here and in the crates above: one picture is asked for both types, so a struct of the two would
// be made for a call and taken apart in it.
pub fn plane_config(t: PlaneType, pic: Picture) -> PlaneConfig
    ensures { result ≡ config_of t pic.w pic.h }
{
    let xorigin = t.xorigin();
    let pad = t.pad_size();
    let width = t.side(pic.w);
    let height = t.side(pic.h);
    PlaneConfig {
        stride: (xorigin + width + pad).next_multiple_of(16),
        alloc_height: pad + height + pad,
        width,
        height,
        xorigin,
        yorigin: pad,
    }
}

// The length that a plane's buffer needs.
pub fn plane_len(t: PlaneType, pic: Picture) -> usize
    ensures { result ≡ plane_len t pic.w pic.h }
{
    let c = plane_config(t, pic);
    c.stride * c.alloc_height
}

// ---- PlaneSlice::clamp

// In one direction: the stored column or row of a start, held between minus the origin and the plane's size.
fn clamp(start: Pel, origin: usize, size: usize) -> usize
    requires { (origin ≤ 8128) × (size ≤ 8128) }
    ensures { result ≡ start_at origin size start.0 }
{
    let origin = origin as i32;
    (start.0.clamp(-origin, size as i32) + origin) as usize
}

// The index of a window's first sample, from its place in the picture.
pub fn window_start(t: PlaneType, pic: Picture, x: Pel, y: Pel) -> usize
    ensures { result ≡ window_start t pic.w pic.h x.0 y.0 }
{
    let c = plane_config(t, pic);
    let row = clamp(y, c.yorigin, c.height);
    let column = clamp(x, c.xorigin, c.width);
    row * c.stride + column
}

// ---- PlaneSlice: a window that holds the lent samples, its stride and place

#[derive(Clone, Copy)]
pub struct PlaneSlice<'a> {
    pub plane: &'a [u16],
    pub stride: usize,
    pub at: usize,
}

impl<'a> PlaneSlice<'a> {
    // What lies in the plane from a row of the window on.
    pub fn row(self, y: usize) -> &'a [u16]
        requires { self.at + y * self.stride ≤ length self.plane.now }
        ensures { result.now ≡ drop (self.entry.at + y * self.entry.stride) self.entry.plane.now }
    {
        let i = self.at + y * self.stride;
        &self.plane[i..]
    }
}
