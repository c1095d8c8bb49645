//! Numbers of sixteen bits in bytes, "low byte first": read and written here alone.
#![tactic(auto)]

ghost use Rattle.std.specs.Prelude.{◌≡◌, [], ◌∷◌, ◌+◌, ◌≤◌, ◌<◌, get_or, length};
ghost use Rattle.evc_int.specs.Whole.{◌modulo◌};
ghost use Rattle.evc_int.specs.LowBits.{signed16};
ghost use Rattle.evc_bytes.specs.Bytes.{bytes_of, number_at};
ghost use Rattle.evc_bytes.specs.Inner.{moved, Puts};

// ---- reading

// One for each sign, as the methods below: a trait over two types would say no more.
pub fn u16_at(s: &[u8], at: usize) -> u16
    requires { at + 2 ≤ length s.now }
    ensures { result ≡ number_at 2 s.now at }
{
    u16::from_le_bytes([s[at], s[at + 1]])
}

pub fn i16_at(s: &[u8], at: usize) -> i16
    requires { at + 2 ≤ length s.now }
    ensures { result ≡ signed16 (number_at 2 s.now at) }
{
    i16::from_le_bytes([s[at], s[at + 1]])
}

// Takes numbers from bytes, each behind the one before.
#[derive(Drop)]
pub struct Reader<'a> {
    bytes: &'a [u8],
    at: usize,
}

impl<'a> Reader<'a> {
    // From the place `at` on.
    pub fn new(bytes: &'a [u8], at: usize) -> Reader<'a>
        ensures { (result.bytes.now ≡ bytes.now) × (result.at ≡ at) }
    {
        Reader { bytes, at }
    }

    pub fn take_u8(&mut self) -> u8
        requires { self.old.at < length self.old.bytes.now }
        ensures value { result ≡ get_or self.old.bytes.now self.old.at 0 }
        ensures moved { self.new ≡ moved self.old 1 }
    {
        let byte = self.bytes[self.at];
        self.at += 1;
        byte
    }

    pub fn take_u16(&mut self) -> u16
        requires { self.old.at + 2 ≤ length self.old.bytes.now }
        ensures value { result ≡ number_at 2 self.old.bytes.now self.old.at }
        ensures moved { self.new ≡ moved self.old 2 }
    {
        u16::from_le_bytes([self.take_u8(), self.take_u8()])
    }

    pub fn take_i16(&mut self) -> i16
        requires { self.old.at + 2 ≤ length self.old.bytes.now }
        ensures value { result ≡ signed16 (number_at 2 self.old.bytes.now self.old.at) }
        ensures moved { self.new ≡ moved self.old 2 }
    {
        self.take_u16().cast_signed()
    }
}

// ---- writing

// Puts bytes into a buffer, each run behind the one before.
#[derive(Drop)]
pub struct Writer<'a> {
    out: &'a mut [u8],
    at: usize,
}

impl<'a> Writer<'a> {
    // From the start of the buffer on.
    pub fn new(out: &'a mut [u8]) -> Writer<'a>
        ensures same_buffer { result.out.ghost_name ≡ out.entry.ghost_name }
        ensures nothing_yet { (result.out.now ≡ out.old) × (result.at ≡ 0) }
    {
        Writer { out, at: 0 }
    }

    pub fn put_u8(&mut self, v: u8)
        requires { self.old.at < length self.old.out.now }
        ensures { Puts self.old self.new (v ∷ []) }
    {
        self.out[self.at] = v;
        self.at += 1;
    }

    pub fn put_u16(&mut self, v: u16)
        requires { self.old.at + 2 ≤ length self.old.out.now }
        ensures { Puts self.old self.new (bytes_of 2 v) }
    {
        let [low, high] = v.to_le_bytes();
        self.put_u8(low);
        self.put_u8(high);
    }

    pub fn put_i16(&mut self, v: i16)
        requires { self.old.at + 2 ≤ length self.old.out.now }
        ensures { Puts self.old self.new (bytes_of 2 (v modulo 65536)) }
    {
        self.put_u16(v.cast_unsigned());
    }
}
