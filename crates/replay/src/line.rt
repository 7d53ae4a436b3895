// A line `argument,plain,fused`: three times 16 lowercase hex digits, parted by commas, ended by byte 0a.
ghost use Rattle.std.specs.Prelude.{Some, codes, ◌≡◌, ◌+◌, ◌*◌, ◌<◌, ◌≤◌, true, length};
ghost use Rattle.replay.specs.Lines.{digit_of, hex_from, OnSome, framed, line_of, line_or};

use std::error::Error;
use std::fmt;

// The bytes of a line.
pub const LENGTH: usize = 51;

// What the Rust answered without and with fused multiply-add.
#[derive(Clone, Copy, Debug, PartialEq, Eq)]
pub struct Line {
    pub argument: u64,
    pub plain: u64,
    pub fused: u64,
}

// These bytes are no line.
#[derive(Clone, Copy, Debug, PartialEq, Eq)]
pub struct Malformed;

impl fmt::Display for Malformed {
    ghost output = { λ _. Some (codes "a line is not so formed") };

    fn fmt<W: fmt::Write>(&self, f: &mut fmt::Formatter<W>) -> fmt::Result {
        f.write_str("a line is not so formed")
    }
}

impl Error for Malformed {}

// Lowercase alone: the library's digits are capitals too. Two tests, since a `match` over both ranges compares three times a digit.
fn digit(b: u8) -> Option<u64>
    ensures value { result ≡ digit_of b }
    ensures bound { OnSome result (λ d. d < 16) }
{
    if b.is_ascii_digit() {
        Some(u64::from(b - b'0'))
    } else if matches!(b, b'a'..=b'f') {
        Some(u64::from(b - b'a' + 10))
    } else {
        None
    }
}

// The number that the digits stand for, or none where a byte is no digit.
fn hex(digits: &[u8]) -> Option<u64>
    requires { length digits.now ≤ 16 }
    ensures { result ≡ hex_from 0 digits.now }
{
    let mut value = 0u64;
    for b in digits {
        value = value * 16 + digit(*b)?;
    }
    Some(value)
}

// A line's length, commas and end.
fn is_framed(bytes: &[u8]) -> bool
    ensures value { result ≡ framed bytes.now }
    ensures length { result ≡ true → length bytes.now ≡ 51 }
{
    bytes.len() == LENGTH && bytes[16] == b',' && bytes[33] == b',' && bytes[50] == b'\n'
}

// Its three fields go by `?`, so that one `ok_or` serves them all.
fn line_in(bytes: &[u8]) -> Option<Line>
    ensures { result ≡ line_of bytes.now }
{
    if !is_framed(bytes) {
        return None;
    }
    let argument = hex(&bytes[0..16])?;
    let plain = hex(&bytes[17..33])?;
    let fused = hex(&bytes[34..50])?;
    Some(Line {
        argument,
        plain,
        fused,
    })
}

impl TryFrom<&[u8]> for Line {
    type Error = Malformed;

    ghost try_from_gives = { λ bytes r. r ≡ line_or bytes.now };

    fn try_from(bytes: &[u8]) -> Result<Self, Malformed> {
        line_in(bytes).ok_or(Malformed)
    }
}
