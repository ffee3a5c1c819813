// Reading a word back, and comparing two words.
// First the types; then `read_word` and what it is made of; last `prepare_alike`.
ghost use Rattle.std.specs.Prelude.{◌≡◌, cond, ◌/◌, ◌%◌, ◌≤◌, eqb, pos};
ghost use Rattle.settings.specs.Reading.{candidate, is_code, read_no, up_matters, down_matters, describe, agree, alike};
ghost use Rattle.settings.specs.Answers.{tested, told, read_answer};

use crate::refusal::{BadWord, Refusal, refuse_if};
use crate::super_opts::SuperOpts;

// What a word tells. A setting that doesn't matter is absent.
#[derive(Clone, Copy)]
pub struct Description {
    pub width: i32,
    pub height: i32,
    pub pel: i32,
    pub levels: i32,
    pub gpu: i32,
    pub full: bool,
    pub rc: bool,
    pub lean: bool,
    pub down: Option<i32>,
    pub up: Option<i32>,
}

pub fn read_word(word: u64) -> Result<Description, Refusal>
    ensures { told result ≡ read_answer word }
{
    let r = candidate(word);
    tested(r, word)?;
    Ok(describe(r))
}

// The record that a word spells, with 0 for a filter that the word doesn't name.
fn candidate(word: u64) -> SuperOpts
    ensures { result ≡ candidate word }
{
    SuperOpts {
        pel: field(word, 0x1_0000_0000, 0x100),
        gpu: field(word, 0x1_0000_0000_0000, 0x100),
        scale_down: down_by(is_set(word, 0x4000_0000_0000)),
        scale_up: 0,
        full: !is_set(word, 0x200_0000_0000_0000),
        rc: is_set(word, 0x100_0000_0000_0000),
        lean: is_set(word, 0x8000_0000_0000),
        levels: field(word, 0x100_0000_0000, 0x40),
        width: field(word, 0x1_0000, 0x1_0000),
        height: field(word, 1, 0x1_0000),
    }
}

fn field(word: u64, place: u64, size: u64) -> i32
    requires { (1 ≤ place) × (1 ≤ size) × (size ≤ 65536) }
    ensures { result ≡ pos (word / place % size) }
{
    (word / place % size) as i32
}

fn is_set(word: u64, place: u64) -> bool
    requires { 1 ≤ place }
    ensures { result ≡ eqb (word / place % 2) 1 }
{
    word / place % 2 == 1
}

fn down_by(other: bool) -> i32
    ensures { result ≡ cond other (pos 0) (pos 4) }
{
    if other {
        return 0;
    }
    4
}

// Refusals 20 to 22 of a word and the record that it spells.
#[tactic(auto, unfolding(crate::specs::Reading::read_no))]
fn tested(r: SuperOpts, word: u64) -> Result<(), Refusal>
    requires { r ≡ candidate word }
    ensures { tested result ≡ read_no word }
{
    let code = is_code(r, word);
    let halving = down_matters(r) & (r.scale_down != 4);
    let upscale = up_matters(r) & (r.gpu == 0);
    refuse_if(!code, BadWord::NoCode)?;
    refuse_if(halving, BadWord::Halving)?;
    refuse_if(upscale, BadWord::Upscale)?;
    Ok(())
}

fn is_code(r: SuperOpts, word: u64) -> bool
    ensures { result ≡ is_code r word }
{
    match r.pack_data() {
        Ok(w) => w == word,
        Err(_) => false,
    }
}

fn up_matters(r: SuperOpts) -> bool
    ensures { result ≡ up_matters r }
{
    let n = r.naturals();
    (1 < n.pel) & (n.gpu < 2) & r.full & (1 <= n.levels)
}

fn down_matters(r: SuperOpts) -> bool
    ensures { result ≡ down_matters r }
{
    let n = r.naturals();
    2 <= n.levels
}

fn describe(r: SuperOpts) -> Description
    ensures { result ≡ describe r }
{
    Description {
        width: r.width,
        height: r.height,
        pel: r.pel,
        levels: r.levels,
        gpu: r.gpu,
        full: r.full,
        rc: r.rc,
        lean: r.lean,
        down: down_matters(r).then_some(r.scale_down),
        up: up_matters(r).then_some(r.scale_up),
    }
}

// Whether two words stand for one preparation.
pub fn prepare_alike(a: u64, b: u64) -> bool
    ensures { result ≡ alike a b }
{
    names_build(a) & names_build(b) & agree(a, b)
}

fn names_build(word: u64) -> bool
    ensures { result ≡ eqb (read_no word) 0 }
{
    read_word(word).is_ok()
}

// In all bits but lean's and rc's.
fn agree(a: u64, b: u64) -> bool
    ensures { result ≡ agree a b }
{
    (a % 0x8000_0000_0000 == b % 0x8000_0000_0000)
        & (a / 0x1_0000_0000_0000 % 0x100 == b / 0x1_0000_0000_0000 % 0x100)
        & (a / 0x200_0000_0000_0000 % 0x80 == b / 0x200_0000_0000_0000 % 0x80)
}
