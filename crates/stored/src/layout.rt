// The stored layout: offset, width and height of each level, made once from record, shifts and pitch. The record stands beside it.
// It is a run of numbers, in Rattle as in C, so that a call reads the caller's own and copies none: the count of levels, the shifts, the pitch, then of each level offset, width and height next to each other, zeros past the last. A larger limit on the levels adds numbers at the end and moves no place.
// First making; then the test whether numbers are the layout that their record gives; last changing.
ghost use Rattle.std.specs.Prelude.{◌≡◌, true, ◌<◌, length, replicate};
ghost use Rattle.settings.specs.Limits.{most_levels};
ghost use Rattle.settings.specs.Check.{accepted};
ghost use Rattle.settings.specs.Answers.{tested};
ghost use Rattle.layouts.specs.Layout.{levels_of};
ghost use Rattle.stored.specs.Layout.{most_numbers, stored_of, view_of, is_stored};
ghost use Rattle.stored.specs.Inner.{has_view, region_in, same_region, every_level, same_at};
ghost use Rattle.stored.specs.Refusals.{stored_no};
ghost use Rattle.stored.specs.Answers.{laid, layout_answer, change_answer};

use layouts::descent::Descent;
use layouts::fitting::Fitting;
use layouts::layout::{Layout, Region};
use layouts::levels::{bad_pitch, least_pitch};
use settings::limits::MOST_LEVELS;
use settings::refusal::{BadLayout, Refusal, refuse_if};
use settings::super_opts::SuperOpts;

// The places of the numbers before those of the levels.
pub const COUNT: usize = 0;

const X_SHIFT: usize = 1;

const Y_SHIFT: usize = 2;

pub const PITCH: usize = 3;

// How many these are, how many a level has, and how many a layout has.
const HEAD: usize = 4;

const STEP: usize = 3;

pub const LAYOUT: usize = HEAD + STEP * MOST_LEVELS;

// By index for the reason that `zero_row` of `filters` has: `fill` takes some instructions a call more.
fn zero(numbers: &mut [usize])
    ensures { numbers.new ≡ replicate (length numbers.old) 0 }
{
    for i in 0..numbers.len() {
        numbers[i] = 0;
    }
}

// Makes a layout where the caller has room for it.
pub fn fill(numbers: &mut [usize], fitting: Fitting)
    requires { length numbers.old ≡ most_numbers }
    ensures { numbers.new ≡ stored_of fitting.layout }
{
    let layout = fitting.layout;
    let levels = layout.opts.naturals().levels;
    numbers[COUNT] = levels as usize;
    numbers[X_SHIFT] = layout.x_shift as usize;
    numbers[Y_SHIFT] = layout.y_shift as usize;
    numbers[PITCH] = layout.pitch;
    let mut at = Descent::top(layout);
    // By index: a level's numbers are written where `region_in` reads them.
    for level in 0..levels {
        let r = at.region();
        let i = HEAD + STEP * level as usize;
        numbers[i] = r.offset;
        numbers[i + 1] = r.width;
        numbers[i + 2] = r.height;
        at = at.next();
    }
    let from = HEAD + STEP * levels as usize;
    zero(&mut numbers[from..]);
}

// Makes the layout that record, shifts and pitch settle. Refusals 6, 7 and 8.
pub fn level_regions(layout: Layout) -> Result<[usize; LAYOUT], Refusal>
    ensures { laid result ≡ layout_answer layout }
{
    let fitting = Fitting::of(layout)?;
    let mut numbers = [0; LAYOUT];
    fill(&mut numbers, fitting);
    Ok(numbers)
}

fn has_view(numbers: &[usize]) -> bool
    ensures { result ≡ has_view numbers.now }
{
    if numbers.len() != LAYOUT {
        return false;
    }
    (numbers[X_SHIFT] <= 1) & (numbers[Y_SHIFT] <= 1)
}

// What settles it, with the record that stands beside it.
pub fn view(opts: SuperOpts, numbers: &[usize]) -> Layout
    requires { has_view numbers.now ≡ true }
    ensures { result ≡ view_of opts numbers.now }
{
    Layout {
        opts,
        x_shift: numbers[X_SHIFT] as u32,
        y_shift: numbers[Y_SHIFT] as u32,
        pitch: numbers[PITCH],
    }
}

pub fn region_in(numbers: &[usize], level: u32) -> Region
    requires { (level < most_levels) × (length numbers.now ≡ most_numbers) }
    ensures { result ≡ region_in numbers.now level }
{
    let i = HEAD + STEP * level as usize;
    Region {
        offset: numbers[i],
        width: numbers[i + 1],
        height: numbers[i + 2],
    }
}

// The places past the last level, where those before are as making gives them.
fn ends_in_zeros(numbers: &[usize], layout: Layout, levels: u32) -> bool
    requires { (levels ≡ levels_of layout) × (length numbers.now ≡ most_numbers) × (every_level (same_at layout numbers.now) levels ≡ true) }
    ensures { result ≡ every_level (same_at layout numbers.now) most_levels }
{
    let none = Region {
        offset: 0,
        width: 0,
        height: 0,
    };
    for level in levels..MOST_LEVELS as u32 {
        if region_in(numbers, level) != none {
            return false;
        }
    }
    true
}

// One walk down the levels, with a comparison each.
fn has_regions(numbers: &[usize], fitting: Fitting) -> bool
    requires { length numbers.now ≡ most_numbers }
    ensures { result ≡ every_level (same_at fitting.layout numbers.now) most_levels }
{
    let layout = fitting.layout;
    let levels = layout.opts.naturals().levels;
    let mut at = Descent::top(layout);
    for level in 0..levels {
        if region_in(numbers, level) != at.region() {
            return false;
        }
        at = at.next();
    }
    ends_in_zeros(numbers, layout, levels)
}

// For a record that was tested.
fn is_stored(opts: SuperOpts, numbers: &[usize]) -> bool
    requires { accepted opts ≡ true }
    ensures { result ≡ is_stored opts numbers.now }
{
    if !has_view(numbers) {
        return false;
    }
    let layout = view(opts, numbers);
    if bad_pitch(layout.pitch, least_pitch(layout)) {
        return false;
    }
    if numbers[COUNT] != opts.naturals().levels as usize {
        return false;
    }
    has_regions(numbers, Fitting { layout })
}

// Whether they are the layout that the record gives for their own shifts and pitch. Refusals 6 and 32.
#[tactic(auto, unfolding(crate::specs::Refusals::stored_no))]
pub fn tested(opts: SuperOpts, layout: &[usize]) -> Result<(), Refusal>
    ensures { tested result ≡ stored_no opts layout.now }
{
    refuse_if(!opts.accepted(), Refusal::NoRecord)?;
    refuse_if(!is_stored(opts, layout), BadLayout::Stored)?;
    Ok(())
}

// What making gives for other shifts or another pitch. Refusals 6 and 32, for the layout itself; then 7 and 8.
pub fn change(
    opts: SuperOpts,
    layout: &[usize],
    x_shift: u32,
    y_shift: u32,
    pitch: usize,
) -> Result<[usize; LAYOUT], Refusal>
    ensures { laid result ≡ change_answer opts layout.now x_shift y_shift pitch }
{
    tested(opts, layout)?;
    let old = view(opts, layout);
    level_regions(Layout {
        x_shift,
        y_shift,
        pitch,
        ..old
    })
}
