// Text in and out, for both programs; and the line of `words`: a line in, the line that document 01 prints for it out.
// First digits in; then `Line`, text that is being made, with what is put after it; last `line_out`, a whole line.
ghost use Rattle.std.specs.Prelude.{◌≡◌, true, [], ◌∷◌, ◌+◌, ◌^◌, ◌≤◌, ◌<◌, length};
ghost use Rattle.settings.specs.Numbers.{bit};
ghost use Rattle.lines.specs.Text.{is_hex, hex_of, is_digit, all_digits, number_of, hex_read, digits, decimal, signed, spaced, optional, described, word_line, sizes_text, flags_text, filters_text, line_out, room, Appended, Printed};

use settings::word::{Description, read_word};
use std::marker::Model;

// By hand, here and below: the library's `to_digit` and `from_str_radix` take A-F too, which the rule refuses.
fn is_hex(b: u8) -> bool
    ensures { result ≡ is_hex b }
{
    matches!(b, b'0'..=b'9' | b'a'..=b'f')
}

pub fn hex_of(b: u8) -> u64
    requires { is_hex b ≡ true }
    ensures { (result ≡ hex_of b) × (result < 16) }
{
    match b {
        b'0'..=b'9' => u64::from(b - b'0'),
        _ => u64::from(b - b'a' + 10),
    }
}

fn is_digit(b: u8, base: u64) -> bool
    ensures { result ≡ is_digit base b }
{
    is_hex(b) && hex_of(b) < base
}

pub fn all_digits(line: &[u8], base: u64) -> bool
    ensures { result ≡ all_digits base line.now }
{
    line.iter().all(|&b| is_digit(b, base))
}

// The number that digits make.
pub fn number_of(line: &[u8], base: u64) -> u64
    requires { (base ≤ 16) × (length line.now ≤ 16) × (all_digits base line.now ≡ true) }
    ensures { result ≡ number_of base 0 line.now }
{
    let mut v: u64 = 0;
    for &b in line {
        v = base * v + hex_of(b);
    }
    v
}

// The word that a line of 16 digits is.
pub fn hex_word(line: &[u8]) -> Option<u64>
    ensures { result ≡ hex_read line.now }
{
    if line.len() == 16 && all_digits(line, 16) {
        Some(number_of(line, 16))
    } else {
        None
    }
}

// The room of a line: each line that is made is shorter.
pub const ROOM: usize = 256;

// Text that is being made, at the front of a buffer of fixed size: nothing here is on a heap. A clause sees the text alone.
// After the text the buffer holds zeros: so the text gives the buffer back, which a copy asks of a model.
#[derive(Clone, Copy)]
pub struct Line {
    bytes: [u8; ROOM],
    len: usize,
}

impl Model for Line {
    ghost use Rattle.std.specs.Prelude.{◌≡◌, ℕ, List, ◌≤◌, length, take};
    ghost use Rattle.lines.specs.Text.{room, buffer_of};

    ghost Value = { List ℕ };

    ghost view = { λ l. take l.len l.bytes };

    ghost invariant = { λ l. (l.len ≤ room) × (length (take l.len l.bytes) ≡ l.len) × (buffer_of (take l.len l.bytes) ≡ l.bytes) };

    ghost inverse = { λ t. record { bytes = buffer_of t; len = length t } };

    ghost inverse_ok = { λ l h i. record { bytes = h.2 i; len = h.1 i } };
}

impl Line {
    pub fn new() -> Line
        ensures { result ≡ [] }
    {
        Line {
            bytes: [0; ROOM],
            len: 0,
        }
    }

    pub fn as_bytes(&self) -> &[u8]
        ensures { result.now ≡ self.now }
    {
        &self.bytes[..self.len]
    }

    pub fn with_byte(self, b: u8) -> Line
        requires { length self < room }
        ensures { Appended self result (b ∷ []) 1 }
    {
        let mut next = self;
        next.bytes[next.len] = b;
        next.len += 1;
        next
    }

    // The digits of n, `most` of them at most. By hand: `write!` answers a Result, and here nothing can fail.
    #[tactic(auto, unfolding(crate::specs::Text::digits))]
    fn with_digits(self, n: u64, most: usize) -> Line
        requires { (length self + most ≤ room) × (1 ≤ most) × (n < 10 ^ most) }
        ensures { Appended self result (digits most n) most }
    {
        if n < 10 {
            return self.with_byte(b'0' + n as u8);
        }
        self.with_digits(n / 10, most - 1)
            .with_byte(b'0' + (n % 10) as u8)
    }

    pub fn with_decimal(self, n: u64) -> Line
        requires { length self + 20 ≤ room }
        ensures { Appended self result (decimal n) 20 }
    {
        self.with_digits(n, 20)
    }

    pub fn with_number(self, n: u64) -> Line
        requires { length self + 21 ≤ room }
        ensures { Appended self result (spaced (decimal n)) 21 }
    {
        self.with_byte(b' ').with_decimal(n)
    }

    pub fn with_int(self, z: i32) -> Line
        requires { length self + 22 ≤ room }
        ensures { Appended self result (spaced (signed z)) 22 }
    {
        let n = u64::from(z.unsigned_abs());
        if z < 0 {
            return self.with_byte(b' ').with_byte(b'-').with_decimal(n);
        }
        self.with_number(n)
    }

    fn with_bool(self, b: bool) -> Line
        requires { length self + 21 ≤ room }
        ensures { Appended self result (spaced (decimal (bit b))) 21 }
    {
        self.with_number(b as u64)
    }

    fn with_optional(self, o: Option<i32>) -> Line
        requires { length self + 22 ≤ room }
        ensures { Appended self result (optional o) 22 }
    {
        match o {
            Some(z) => self.with_int(z),
            None => self.with_byte(b' ').with_byte(b'-'),
        }
    }

    fn with_sizes(self, d: Description) -> Line
        requires { length self + 110 ≤ room }
        ensures { Appended self result (sizes_text d) 110 }
    {
        self.with_int(d.width)
            .with_int(d.height)
            .with_int(d.pel)
            .with_int(d.levels)
            .with_int(d.gpu)
    }

    pub fn with_flags(self, full: bool, rc: bool, lean: bool) -> Line
        requires { length self + 63 ≤ room }
        ensures { Appended self result (flags_text full rc lean) 63 }
    {
        self.with_bool(full).with_bool(rc).with_bool(lean)
    }

    fn with_filters(self, d: Description) -> Line
        requires { length self + 44 ≤ room }
        ensures { Appended self result (filters_text d) 44 }
    {
        let down = d.down;
        let up = d.up;
        self.with_optional(down).with_optional(up)
    }

    #[tactic(auto, unfolding(crate::specs::Text::described))]
    fn with_description(self, d: Description) -> Line
        requires { length self + 217 ≤ room }
        ensures { Appended self result (described d) 217 }
    {
        self.with_sizes(d)
            .with_flags(d.full, d.rc, d.lean)
            .with_filters(d)
    }

    fn with_bytes(self, line: &[u8]) -> Line
        requires { length self + length line.now ≤ room }
        ensures { Appended self result line.now (length line.now) }
    {
        let mut next = self;
        let at = next.len;
        let end = at + line.len();
        next.bytes[at..end].copy_from_slice(line);
        next.len = end;
        next
    }

    #[tactic(auto, unfolding(crate::specs::Text::word_line))]
    fn with_word(self, line: &[u8], word: u64) -> Line
        requires { (length self + 254 ≤ room) × (length line.now ≡ 16) }
        ensures { Appended self result (word_line line.now word) 254 }
    {
        let spelled = self.with_bytes(line);
        match read_word(word) {
            Ok(d) => spelled.with_number(0).with_description(d),
            Err(f) => spelled.with_number(f.number() as u64),
        }
    }
}

// The line that is printed for a line of the input.
pub fn line_out(line: &[u8]) -> Line
    ensures { Printed (length line.now) result (line_out line.now) }
{
    match hex_word(line) {
        Some(v) => Line::new().with_word(line, v).with_byte(b'\n'),
        None => Line::new().with_byte(b'-').with_byte(b'\n'),
    }
}
