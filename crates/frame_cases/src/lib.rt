// The cases of the replays of frames: words of 4 bytes, the low byte first, of which the first 10 are a record's pel gpu down up full rc lean levels width height. Where they are about one plane, 4 more make it a layout: the shifts, the pitch (high and low word). It is made first, by the program; where that is refused, the answer has its number.
// A case that builds has the lengths of source, frame, spill and scratch, and then says whether the whole frame is asked for, whether the earlier bytes are made, and their seed; it ends with the source's bytes and, where they aren't made, the earlier bytes of frame, spill and scratch.
// Made bytes: x becomes 48,271 * x modulo 2^31 - 1, from the seed on, and the byte is floor(x / 2^23); seed 0 makes zeros. Spill and scratch go on where the frame ends.
// The answer to a build is the number (4 bytes), the sums of frame, spill and scratch after the call (8 bytes each) and, if asked for, the frame.
// A sum is two numbers of 4 bytes: from 1 on, h becomes (h * m + byte) modulo 4,294,967,291, with m = 1,000,003 for the first and m = 998,244,353 for the second.
// First what is read of a case; then the earlier bytes; then what is answered.
#![tactic(auto)]

ghost use Rattle.std.specs.Prelude.{◌≡◌, ◌≤◌, ◌<◌, length, slice_index, IfOk};
ghost use Rattle.cases.specs.Cases.{bool_at};

use cases::{End, halves, layout_of, read_whole};
use settings::refusal::Refusal;
use std::io;
use stored::layout::{LAYOUT, level_regions};

pub fn read_words<R: Input, const N: usize>(rt: &R) -> Result<[u32; N], End>
    requires { N < 100 }
{
    let mut words = [[0u8; 4]; N];
    read_whole(rt, words.as_flattened_mut())?;
    Ok(words.map(u32::from_le_bytes))
}

pub fn laid_of(words: &[u32]) -> Result<[usize; LAYOUT], Refusal>
    requires { 14 ≤ length words.now }
{
    level_regions(layout_of(words))
}

// What a case that builds says but for the source.
#[derive(Clone, Copy)]
pub struct Asked {
    pub frame: usize,
    pub spill: usize,
    pub scratch: usize,
    pub whole: bool,
    pub made: bool,
    pub seed: u32,
}

impl Asked {
    pub fn of(words: &[u32]) -> Asked
        requires { 6 ≤ length words.now }
        ensures lengths { (result.frame ≡ slice_index words.now 0) × (result.spill ≡ slice_index words.now 1) × (result.scratch ≡ slice_index words.now 2) }
        ensures wanted { (result.whole ≡ bool_at words.now 3) × (result.made ≡ bool_at words.now 4) × (result.seed ≡ slice_index words.now 5) }
    {
        Asked {
            frame: words[0] as usize,
            spill: words[1] as usize,
            scratch: words[2] as usize,
            whole: words[3] != 0,
            made: words[4] != 0,
            seed: words[5],
        }
    }
}

// What a build is lent but for the source.
#[derive(Drop)]
pub struct Lent<'a> {
    pub frame: &'a mut [u8],
    pub spill: &'a mut [u8],
    pub scratch: &'a mut [u8],
}

impl<'a> Lent<'a> {
    // Of what a program has, as much as a case asks for.
    pub fn of(
        asked: Asked,
        frame: &'a mut [u8],
        spill: &'a mut [u8],
        scratch: &'a mut [u8],
    ) -> Result<Lent<'a>, End>
        ensures { IfOk result (λ l. (length l.frame.now ≡ asked.frame) × (length l.spill.now ≡ asked.spill) × (length l.scratch.now ≡ asked.scratch)) }
    {
        Ok(Lent {
            frame: part(frame, asked.frame)?,
            spill: part(spill, asked.spill)?,
            scratch: part(scratch, asked.scratch)?,
        })
    }

    pub fn earlier<R: Input>(&mut self, rt: &R, asked: Asked) -> Result<(), End> {
        if !asked.made {
            read_whole(rt, self.frame)?;
            read_whole(rt, self.spill)?;
            return read_whole(rt, self.scratch);
        }
        let after_frame = make(self.frame, u64::from(asked.seed) % 0x7fff_ffff);
        let after_spill = make(self.spill, after_frame);
        make(self.scratch, after_spill);
        Ok(())
    }
}

pub fn part(bytes: &mut [u8], len: usize) -> Result<&mut [u8], End>
    ensures { IfOk result (λ p. length p.now ≡ len) }
{
    bytes.get_mut(..len).ok_or(End::TooLong)
}

fn make(bytes: &mut [u8], seed: u64) -> u64
    requires { seed < 2147483647 }
    ensures { result < 2147483647 }
{
    let mut x = seed;
    for b in bytes.iter_mut() {
        x = x * 48_271 % 0x7fff_ffff;
        *b = (x / 0x80_0000) as u8;
    }
    x
}

pub fn put_tested<R: Print>(rt: &R, t: Result<(), Refusal>) -> io::Result<()> {
    put_number(rt, t.map_or_else(|f| f.number(), |()| 0))
}

pub fn put_number<R: Print>(rt: &R, n: u32) -> io::Result<()> {
    rt.write_all(&n.to_le_bytes())
}

// A number of two words, the high one first.
pub fn put_long<R: Print>(rt: &R, n: usize) -> io::Result<()> {
    let [high, low] = halves(n);
    put_number(rt, high)?;
    put_number(rt, low)
}

impl Lent<'_> {
    pub fn put<R: Print>(&self, rt: &R, asked: Asked) -> io::Result<()> {
        put_sums(rt, self.frame)?;
        put_sums(rt, self.spill)?;
        put_sums(rt, self.scratch)?;
        if !asked.whole {
            return Ok(());
        }
        rt.write_all(self.frame)
    }
}

fn put_sums<R: Print>(rt: &R, bytes: &[u8]) -> io::Result<()> {
    let mut a: u64 = 1;
    let mut b: u64 = 1;
    for x in bytes {
        a = (a * 1_000_003 + u64::from(*x)) % 4_294_967_291;
        b = (b * 998_244_353 + u64::from(*x)) % 4_294_967_291;
    }
    put_number(rt, a as u32)?;
    put_number(rt, b as u32)
}
