//! UTF-8, one code point at a time.
ghost use Rattle.std.specs.Prelude.{◌≡◌, ◌≤◌, take};
ghost use Rattle.codepoint.specs.Utf8.{BytesTellApart, DecodesBack, WellFormedIsEncoded, decoded, four_bytes, highest_after, lowest_after, scalar_bytes, three_bytes, trail, two_bytes, utf8};
ghost use Rattle.codepoint.specs.Classes.{is_scalar_value};

pub use crate::encoded::Encoded;

/// What bytes begin with. Three named answers: `Some(Ok((c, len)))` of the library's types would be no plainer.
#[derive(Clone, Copy, PartialEq, Eq, Debug)]
pub enum Decoded {
    /// There is no byte.
    Empty,
    /// A code point, and the number of its bytes.
    Point(u32, usize),
    /// No well-formed sequence.
    IllFormed,
}

/// The first code point of bytes.
pub fn decode(bytes: &[u8]) -> Decoded
    ensures { result ≡ decoded bytes.now }
{
    match bytes {
        [] => Decoded::Empty,
        [a, ..] if *a <= 0x7f => Decoded::Point(u32::from(*a), 1),
        [a, rest @ ..] if 0xc2 <= *a && *a <= 0xdf => decode_two(*a, rest),
        [a, rest @ ..] if 0xe0 <= *a && *a <= 0xef => decode_three(*a, rest),
        [a, rest @ ..] if 0xf0 <= *a && *a <= 0xf4 => decode_four(*a, rest),
        _ => Decoded::IllFormed,
    }
}

fn lowest_after(a: u8) -> u8
    ensures { result ≡ lowest_after a }
{
    match a {
        0xe0 => 0xa0,
        0xf0 => 0x90,
        _ => 0x80,
    }
}

fn highest_after(a: u8) -> u8
    ensures { result ≡ highest_after a }
{
    match a {
        0xed => 0x9f,
        0xf4 => 0x8f,
        _ => 0xbf,
    }
}

// One function for each row of the table of UTF-8: a loop over trailing bytes would be no plainer.
fn decode_two(a: u8, rest: &[u8]) -> Decoded
    requires { 0xc2 ≤ a }
    ensures { result ≡ two_bytes a rest.now }
{
    match rest {
        [b, ..] if 0x80 <= *b && *b <= 0xbf => {
            Decoded::Point((u32::from(a) - 0xc0) * 64 + (u32::from(*b) - 0x80), 2)
        }
        _ => Decoded::IllFormed,
    }
}

fn decode_three(a: u8, rest: &[u8]) -> Decoded
    requires { 0xe0 ≤ a }
    ensures { result ≡ three_bytes a rest.now }
{
    let low = lowest_after(a);
    let high = highest_after(a);
    match rest {
        [b, c, ..] if low <= *b && *b <= high && 0x80 <= *c && *c <= 0xbf => {
            let front = (u32::from(a) - 0xe0) * 64 + (u32::from(*b) - 0x80);
            Decoded::Point(front * 64 + (u32::from(*c) - 0x80), 3)
        }
        _ => Decoded::IllFormed,
    }
}

fn decode_four(a: u8, rest: &[u8]) -> Decoded
    requires { 0xf0 ≤ a }
    ensures { result ≡ four_bytes a rest.now }
{
    let low = lowest_after(a);
    let high = highest_after(a);
    match rest {
        [b, c, d, ..]
            if low <= *b && *b <= high && 0x80 <= *c && *c <= 0xbf && 0x80 <= *d && *d <= 0xbf => {
            let front = (u32::from(a) - 0xf0) * 64 + (u32::from(*b) - 0x80);
            let middle = front * 64 + (u32::from(*c) - 0x80);
            Decoded::Point(middle * 64 + (u32::from(*d) - 0x80), 4)
        }
        _ => Decoded::IllFormed,
    }
}

/// Whether UTF-8 can encode the number: at most U+10FFFF, and no surrogate.
#[tactic(auto, using(std::proofs::lemmas::Bool::Decides::nat_tests), unfolding(crate::specs::Classes::is_scalar_value))]
pub fn is_scalar_value(c: u32) -> bool
    ensures { result ≡ is_scalar_value c }
{
    char::from_u32(c).is_some()
}

/// The bytes of a code point; what is no scalar value has those of U+FFFD.
#[tactic(auto, using(std::proofs::lemmas::Bool::Decides::nat_tests), unfolding(crate::specs::Classes::is_scalar_value, crate::specs::Utf8::utf8))]
pub fn encode(c: u32) -> Encoded
    ensures { take result.len result.bytes ≡ utf8 c }
{
    if is_scalar_value(c) {
        encode_scalar(c)
    } else {
        encode_scalar(0xfffd)
    }
}

// The casts to `u8` are proved to lose nothing; `try_from` would answer an error that cannot come.
fn encode_scalar(c: u32) -> Encoded
    requires { c ≤ 0x10ffff }
    ensures { take result.len result.bytes ≡ scalar_bytes c }
{
    if c < 0x80 {
        return Encoded {
            bytes: [c as u8, 0, 0, 0],
            len: 1,
        };
    }
    let last = trailing(c);
    if c < 0x800 {
        return Encoded {
            bytes: [(0xc0 + c / 64) as u8, last, 0, 0],
            len: 2,
        };
    }
    let third = trailing(c / 64);
    if c < 0x10000 {
        return Encoded {
            bytes: [(0xe0 + c / 64 / 64) as u8, third, last, 0],
            len: 3,
        };
    }
    let second = trailing(c / 64 / 64);
    Encoded {
        bytes: [(0xf0 + c / 64 / 64 / 64) as u8, second, third, last],
        len: 4,
    }
}

/// The trailing byte of the low six bits; the cast is proved to lose nothing.
fn trailing(x: u32) -> u8
    ensures { result ≡ trail x }
{
    (0x80 + x % 64) as u8
}

impl Encoded {
    pub fn as_slice(&self) -> &[u8]
        ensures { result.now ≡ take self.now.len self.now.bytes }
    {
        &self.bytes[0..self.len]
    }
}

/// The theorems of UTF-8, held by this function's contract.
pub fn utf8_stands()
    ensures well_formed { WellFormedIsEncoded }
    ensures back { DecodesBack }
    ensures apart { BytesTellApart }
{}
