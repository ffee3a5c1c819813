// Bytes as hexadecimal digits, two for each: first the bytes that digits spell, then digits put after a text.
ghost use Rattle.std.specs.Prelude.{◌≡◌, true, ◌+◌, ◌*◌, ◌/◌, ◌≤◌, ◌<◌, length, take};
ghost use Rattle.lines.specs.Text.{all_digits, room, Appended};
ghost use Rattle.longhand_lines.specs.Hex.{bytes_of, hex_digit, hex_digits, hex_text};

use lines::text::{Line, hex_of};

// To the front of `out`.
pub(crate) fn spell(line: &[u8], out: &mut [u8])
    requires { (all_digits 16 line.now ≡ true) × (length line.now ≤ 2 * length out.old) }
    ensures { take (length line.now / 2) out.new ≡ bytes_of line.now }
{
    for (i, pair) in line.chunks_exact(2).enumerate() {
        out[i] = (16 * hex_of(pair[0]) + hex_of(pair[1])) as u8;
    }
}

fn hex_digit(d: u64) -> u8
    requires { d < 16 }
    ensures { result ≡ hex_digit d }
{
    match d {
        0..=9 => b'0' + d as u8,
        _ => b'a' + (d - 10) as u8,
    }
}

// The last `count` hexadecimal digits of n. By hand, as the digits of a `Line`.
#[tactic(auto, unfolding(crate::specs::Hex::hex_digits))]
pub(crate) fn with_hex(text: Line, n: u64, count: usize) -> Line
    requires { length text + count ≤ room }
    ensures { Appended text result (hex_digits count n) count }
{
    if count == 0 {
        return text;
    }
    with_hex(text, n / 16, count - 1).with_byte(hex_digit(n % 16))
}

pub(crate) fn with_hex_bytes(text: Line, bytes: &[u8]) -> Line
    requires { length text + 2 * length bytes.now ≤ room }
    ensures { Appended text result (hex_text bytes.now) (2 * length bytes.now) }
{
    let mut next = text;
    for &b in bytes {
        next = with_hex(next, u64::from(b), 2);
    }
    next
}
