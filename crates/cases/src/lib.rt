// What the replays share: cases are read and answered one after the other, and words of a case make a record or a layout.
// First why there is no further case; then reading; then what words make; last how many bytes differ.
#![tactic(auto)]

ghost use Rattle.std.specs.Prelude.{◌≡◌, ◌==◌, ◌≤◌, ◌/◌, ◌%◌, ◌^◌, [], ◌∷◌, count_by, length, not};
ghost use Rattle.std.specs.List.{zip};
ghost use Rattle.cases.specs.Cases.{layout_of, long, record_of};

use input::read_full;
use layouts::layout::Layout;
use settings::super_opts::SuperOpts;
use std::io;

pub const MOST_CASES: u32 = 4_000_000;

// Why no further case is answered.
#[derive(Drop)]
pub enum End {
    // The input has no whole case left, or the program leaves one out.
    NoCase,
    // A case that a program's arrays can't hold: said, so that the comparison shows why it fails.
    TooLong,
    Failed(io::Error),
}

impl From<io::Error> for End {
    fn from(e: io::Error) -> End {
        End::Failed(e)
    }
}

impl End {
    fn say<R: Eprint>(self, rt: &R) -> io::Result<()> {
        match self {
            End::NoCase => Ok(()),
            End::TooLong => eprintln!(rt; "replay: a case is too long"),
            End::Failed(e) => Err(e),
        }
    }
}

pub fn for_each_case<R: Eprint, F: FnMut() -> Result<(), End>>(
    rt: &R,
    most: u32,
    mut answer: F,
) -> io::Result<()>
    requires { F.IsAlwaysCallable answer }
{
    for _ in 0..most {
        if let Err(end) = answer() {
            return end.say(rt);
        }
    }
    Ok(())
}

pub fn read_whole<R: Input>(rt: &R, bytes: &mut [u8]) -> Result<(), End> {
    if read_full(rt, bytes)? < bytes.len() {
        return Err(End::NoCase);
    }
    Ok(())
}

pub fn read_array<R: Input, const N: usize>(rt: &R) -> Result<[u8; N], End> {
    let mut bytes = [0; N];
    read_whole(rt, &mut bytes)?;
    Ok(bytes)
}

// A number of two words.
pub fn long(high: u32, low: u32) -> usize
    ensures { result ≡ long high low }
{
    high as usize * 0x1_0000_0000 + low as usize
}

pub fn halves(n: usize) -> [u32; 2]
    ensures { result ≡ n / 2 ^ 32 ∷ n % 2 ^ 32 ∷ [] }
{
    [(n / 0x1_0000_0000) as u32, (n % 0x1_0000_0000) as u32]
}

// The words pel gpu down up full rc lean levels width height.
pub fn record_of(words: &[u32]) -> SuperOpts
    requires { 10 ≤ length words.now }
    ensures { result ≡ record_of words.now }
{
    SuperOpts {
        pel: words[0].cast_signed(),
        gpu: words[1].cast_signed(),
        scale_down: words[2].cast_signed(),
        scale_up: words[3].cast_signed(),
        full: words[4] != 0,
        rc: words[5] != 0,
        lean: words[6] != 0,
        levels: words[7].cast_signed(),
        width: words[8].cast_signed(),
        height: words[9].cast_signed(),
    }
}

// A record's words, then the shifts and the pitch.
pub fn layout_of(words: &[u32]) -> Layout
    requires { 14 ≤ length words.now }
    ensures { result ≡ layout_of words.now }
{
    Layout {
        opts: record_of(words),
        x_shift: words[10],
        y_shift: words[11],
        pitch: long(words[12], words[13]),
    }
}

// How many of the bytes that stand in both places differ.
pub fn differing(a: &[u8], b: &[u8]) -> usize
    ensures value { result ≡ count_by (λ p. not (p.0 == p.1)) (zip a.now b.now) }
    ensures most { result ≤ length a.now }
{
    a.iter().zip(b).filter(|(x, y)| x != y).count()
}
