// Lines of hexadecimal words, which the replays read and write: each word is 8 digits, an integer as two's complement, and a space or the line's end.
// Words are read and written where they stand: with `map` of a line's places, by value, a replay takes a quarter more time.
#![tactic(auto)]

ghost use Rattle.std.specs.Prelude.{◌<◌};

use cases::{End, read_whole};
use std::io;

const DIGITS: [u8; 16] = *b"0123456789abcdef";

pub fn read_line<R: Input, const N: usize>(rt: &R) -> Result<[u32; N], End>
    requires { N < 100 }
{
    let mut line = [[0u8; 9]; N];
    read_whole(rt, line.as_flattened_mut())?;
    let mut words = [0; N];
    for (word, place) in words.iter_mut().zip(&line) {
        *word = word_at(place);
    }
    Ok(words)
}

fn word_at(place: &[u8; 9]) -> u32 {
    place[..8].iter().fold(0, |v, b| v << 4 | digit(*b))
}

// The value of a digit; of any other byte some value below 16, which `to_digit` has none for.
fn digit(b: u8) -> u32
    ensures { result < 16 }
{
    if b < b'a' {
        return u32::from(b % 16);
    }
    u32::from((b - 87) % 16)
}

pub fn write_line<R: Print, const N: usize>(rt: &R, words: [u32; N]) -> io::Result<()>
    requires { N < 100 }
{
    let mut line = [[b' '; 9]; N];
    for (place, word) in line.iter_mut().zip(&words) {
        put(place, *word);
    }
    if let Some(last) = line.last_mut() {
        last[8] = b'\n';
    }
    rt.write_all(line.as_flattened())
}

fn put(place: &mut [u8; 9], word: u32) {
    let mut v = word;
    for digit in place[..8].iter_mut().rev() {
        *digit = DIGITS[(v % 16) as usize];
        v /= 16;
    }
}
