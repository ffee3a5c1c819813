// The settings check, the word and the super sizes: open-svpflow's super_opts.rs, its names kept.
// First the types; then `SuperOpts::from_opt` and what it is made of; `accepted`; `pack_data`; the super sizes; and last reducing and levels.
ghost use Rattle.std.specs.Prelude.{◌≡◌, true, cond, not, ◌+◌, ◌*◌, ◌<◌, ◌≤◌, ◌^◌, min, max, eqb, pos};
ghost use Rattle.settings.specs.Limits.{most_side, most_levels};
ghost use Rattle.settings.specs.Numbers.{is_nat, to_nat, bit};
ghost use Rattle.settings.specs.Sizes.{reduce, reduced, auto_levels};
ghost use Rattle.settings.specs.Check.{up_by, settled, is_pel, is_gpu, no_finest, bad_lean, is_side, settings_no, naturals_of, accepted, record_no, upward, raised_to_even, full_height, packed_height, super_height, super_width};
ghost use Rattle.settings.specs.Inner.{accepted_but_levels, plainly};
ghost use Rattle.settings.specs.Word.{word_of};
ghost use Rattle.settings.specs.Answers.{answer, outcome, tested, checked, check_answer, packed, pack_answer, sized, height_answer, width_answer};

use crate::limits::{MOST_PACKED, MOST_SIDE};
use crate::numbers::{bit, natural};
use crate::record::Accepted;
use crate::refusal::{BadSetting, Refusal, refuse_if};

const DEFAULT_SCALE_DOWN: i32 = 4;

#[derive(Clone, Copy)]
pub struct Settings {
    pub pel: Option<i32>,
    pub gpu: Option<i32>,
    pub down: Option<i32>,
    pub up: Option<i32>,
    pub full: Option<bool>,
    pub rc: Option<bool>,
    pub lean: Option<bool>,
}

#[derive(Clone, Copy, Default)]
pub struct SuperOpts {
    pub pel: i32,
    pub gpu: i32,
    pub scale_down: i32,
    pub scale_up: i32,
    pub full: bool,
    pub rc: bool,
    pub lean: bool,
    pub levels: i32,
    pub width: i32,
    pub height: i32,
}

// The numbers of a record; 0 for what is below 0.
#[derive(Clone, Copy)]
pub struct Naturals {
    pub pel: u32,
    pub gpu: u32,
    pub levels: u32,
    pub width: u32,
    pub height: u32,
}

impl Settings {
    // With the defaults filled in. Levels are counted before the sides are tested: any number has a count.
    #[tactic(auto, unfolding(crate::specs::Check::settled))]
    fn settled(self, width: i32, height: i32) -> SuperOpts
        ensures { result ≡ settled self width height }
    {
        let gpu = self.gpu.unwrap_or(1);
        SuperOpts {
            pel: self.pel.unwrap_or(2),
            gpu,
            scale_down: self.down.unwrap_or(DEFAULT_SCALE_DOWN),
            scale_up: up_by(gpu, self.up.unwrap_or(2)),
            full: self.full.unwrap_or(true),
            rc: self.rc.unwrap_or(false),
            lean: self.lean.unwrap_or(false),
            levels: levels_of(width, height),
            width,
            height,
        }
    }
}

fn up_by(gpu: i32, up: i32) -> i32
    ensures { result ≡ up_by gpu up }
{
    if gpu != 0 {
        return 0;
    }
    up
}

fn is_pel(z: i32) -> bool
    ensures { result ≡ is_pel z }
{
    (z == 1) | (z == 2) | (z == 4)
}

fn is_gpu(z: i32) -> bool
    ensures { result ≡ is_gpu z }
{
    (z == 0) | (z == 1) | (z == 2)
}

fn is_side(z: i32) -> bool
    ensures { result ≡ is_side z }
{
    (1 <= z) & (z <= MOST_SIDE)
}

impl SuperOpts {
    pub fn from_opt(opt: Settings, width: i32, height: i32) -> Result<SuperOpts, Refusal>
        ensures { checked result ≡ check_answer opt width height }
    {
        let settled = opt.settled(width, height);
        settled.tested()?;
        Ok(settled)
    }

    // Refusals 1 to 5.
    #[tactic(auto, unfolding(crate::specs::Check::settings_no))]
    fn tested(self) -> Result<(), Refusal>
        ensures { tested result ≡ settings_no self }
    {
        refuse_if(!is_pel(self.pel), BadSetting::Pel)?;
        refuse_if(!is_gpu(self.gpu), BadSetting::Gpu)?;
        refuse_if(self.no_finest(), BadSetting::Finest)?;
        refuse_if(self.bad_lean(), BadSetting::Lean)?;
        refuse_if(
            !is_side(self.width) | !is_side(self.height),
            BadSetting::Side,
        )?;
        Ok(())
    }

    fn no_finest(self) -> bool
        ensures { result ≡ no_finest self }
    {
        ((self.pel == 2) | (self.pel == 4)) & !self.full
    }

    fn bad_lean(self) -> bool
        ensures { result ≡ bad_lean self }
    {
        self.lean
            & ((natural(self.pel) > 2)
                | (self.gpu != 1)
                | !self.full
                | (self.scale_down != DEFAULT_SCALE_DOWN))
    }

    // All that `accepted` asks but the levels: enough where these were just counted from the record's own size.
    pub fn accepted_but_levels(self) -> bool
        ensures { result ≡ accepted_but_levels self }
    {
        self.tested().is_ok() & ((self.gpu == 0) | (self.scale_up == 0))
    }

    // Whether the check can return this record.
    pub fn accepted(self) -> bool
        ensures { result ≡ accepted self }
    {
        if !self.accepted_but_levels() {
            return false;
        }
        let n = self.naturals();
        (0 <= self.levels) & has_levels(n.levels, n.width, n.height)
    }

    pub fn naturals(self) -> Naturals
        ensures { result ≡ naturals_of self }
    {
        Naturals {
            pel: natural(self.pel),
            gpu: natural(self.gpu),
            levels: natural(self.levels),
            width: natural(self.width),
            height: natural(self.height),
        }
    }

    // This record as one that passed its test. Refusal 6.
    pub fn as_accepted(self) -> Result<Accepted, Refusal>
        ensures { outcome self (plainly result) ≡ answer (record_no self) self }
    {
        if !self.accepted() {
            return Err(Refusal::NoRecord);
        }
        Ok(Accepted { opts: self })
    }

    pub fn pack_data(self) -> Result<u64, Refusal>
        ensures { packed result ≡ pack_answer self }
    {
        let record = self.as_accepted()?;
        if natural(self.levels) > MOST_PACKED {
            return Err(Refusal::Levels);
        }
        Ok(record.word())
    }

    fn level_flags(self) -> u64
        ensures { result ≡ 64 * bit (not (is_nat self.scale_down 4)) + 128 * bit self.lean }
    {
        64 * bit(self.scale_down != DEFAULT_SCALE_DOWN) + 128 * bit(self.lean)
    }

    fn flags(self) -> u64
        ensures { result ≡ bit self.rc + 2 * bit (not self.full) }
    {
        bit(self.rc) + 2 * bit(!self.full)
    }

    pub fn super_height(self) -> Result<i32, Refusal>
        ensures { sized result ≡ height_answer self }
    {
        let record = self.as_accepted()?;
        Ok(record.super_height())
    }

    pub fn super_width(self) -> Result<i32, Refusal>
        ensures { sized result ≡ width_answer self }
    {
        let record = self.as_accepted()?;
        Ok(record.super_width())
    }
}

impl Accepted {
    fn word(self) -> u64
        ensures { result ≡ word_of self.opts }
    {
        let n = self.opts.naturals();
        let levels = n.levels as u64 + self.opts.level_flags();
        joined(
            n.height as u64,
            n.width as u64,
            n.pel as u64,
            levels,
            n.gpu as u64,
            self.opts.flags(),
        )
    }

    pub fn super_height(self) -> i32
        ensures { result ≡ pos (super_height self.opts) }
    {
        if self.opts.lean {
            return 2;
        }
        let n = self.opts.naturals();
        super_plane_height(n.width, n.height, n.pel, n.levels, self.opts.full) as i32
    }

    pub fn super_width(self) -> i32
        ensures { result ≡ pos (super_width self.opts) }
    {
        if self.opts.full {
            return self.opts.width;
        }
        reduce_dim(natural(self.opts.width), 1) as i32
    }
}

// A sum, where the Rust has shifts and `|`: each field is below the place of the next, so that both give one number. `levels` comes with the level flags, in its bits 6 and 7.
fn joined(height: u64, width: u64, pel: u64, levels: u64, gpu: u64, flags: u64) -> u64
    requires { (height < 2 ^ 16) × (width < 2 ^ 16) × (pel < 2 ^ 8) × (levels < 2 ^ 8) × (gpu < 2 ^ 8) × (flags < 2 ^ 8) }
    ensures { result ≡ height + 2 ^ 16 * width + 2 ^ 32 * pel + 2 ^ 40 * levels + 2 ^ 48 * gpu + 2 ^ 56 * flags }
{
    height
        + 0x1_0000 * width
        + 0x1_0000_0000 * pel
        + 0x100_0000_0000 * levels
        + 0x1_0000_0000_0000 * gpu
        + 0x100_0000_0000_0000 * flags
}

// On i32 sides, 0 for what is below 0.
pub fn levels_of(width: i32, height: i32) -> i32
    ensures { result ≡ pos (auto_levels (to_nat width) (to_nat height)) }
{
    auto_levels(natural(width), natural(height)) as i32
}

pub fn reduce_once(dim: u32) -> u32
    ensures { result ≡ reduce dim }
{
    2 * (dim / 4)
}

pub fn reduce_dim(dim: u32, n: u32) -> u32
    ensures { result ≡ reduced dim n }
{
    let mut d = dim;
    for _ in 0..n {
        d = reduce_once(d);
    }
    d
}

// The count is the answer, and both sides are carried from turn to turn: no range and no iterator says it more plainly.
fn auto_levels(width: u32, height: u32) -> u32
    ensures { result ≡ auto_levels width height }
{
    let mut w = width;
    let mut h = height;
    let mut i = 0;
    loop {
        if (h < 4) | (w < 4) {
            return i;
        }
        w = reduce_once(w);
        h = reduce_once(h);
        i += 1;
    }
}

// Without a walk, since every call that is handed a record asks it: a level takes a bit off the shorter side, and a side of two bits or fewer has none.
fn has_levels(levels: u32, width: u32, height: u32) -> bool
    ensures { result ≡ eqb levels (auto_levels width height) }
{
    let least = width.min(height);
    if levels == 0 {
        return least < 4;
    }
    if levels > 30 {
        return false;
    }
    least >> (levels + 1) == 1
}

// Of a record that isn't lean: `Accepted::super_height` has answered a lean one before.
fn super_plane_height(base_w: u32, base_h: u32, pel: u32, levels: u32, full: bool) -> u32
    requires { (base_w ≤ most_side) × (base_h ≤ most_side) × (pel ≤ 4) × (levels ≤ most_levels) }
    ensures { (result ≡ cond full (full_height base_h pel levels) (packed_height base_w base_h)) × (result < 2 ^ 31) }
{
    if full {
        return full_height(base_h, pel, levels);
    }
    packed_height(base_w, base_h)
}

fn full_height(base_h: u32, pel: u32, levels: u32) -> u32
    requires { (base_h ≤ most_side) × (pel ≤ 4) × (levels ≤ most_levels) }
    ensures { (result ≡ full_height base_h pel levels) × (result < 2 ^ 31) }
{
    let mut total = pel * pel * base_h;
    let mut h = base_h;
    for _ in 1..levels {
        h = reduce_once(h);
        total += h;
    }
    total
}

// Half the bytes of the picture, in rows of level 1's width.
fn packed_height(base_w: u32, base_h: u32) -> u32
    requires { (base_w ≤ most_side) × (base_h ≤ most_side) }
    ensures { (result ≡ packed_height base_w base_h) × (result < 2 ^ 31) }
{
    let width = reduce_dim(base_w, 1).max(1);
    raised_to_even((base_w * base_h / 2).div_ceil(width))
}

fn raised_to_even(n: u32) -> u32
    requires { n + 1 < 2 ^ 32 }
    ensures { result ≡ raised_to_even n }
{
    n + n % 2
}
