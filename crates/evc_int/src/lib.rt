#![tactic(auto)]

ghost use Rattle.std.specs.Prelude.{◌≡◌};
ghost use Rattle.evc_int.specs.LowBits.{low16};

// The low sixteen bits as a signed number: wraps on purpose, where the Rust says `as i16`.
pub fn low16(x: i32) -> i16
    ensures { result ≡ low16 x }
{
    ((x & 0xffff) as u16).cast_signed()
}
