// Settings, records and words.
// First the check, then a record's calls, then a word's; last the super sizes.
ghost use Rattle.std.specs.Prelude.{◌≡◌};
ghost use Rattle.settings.specs.Numbers.{bit};
ghost use Rattle.settings.specs.Check.{record_no};
ghost use Rattle.settings.specs.Reading.{alike};
ghost use Rattle.settings.specs.Answers.{answer};
ghost use Rattle.answers.specs.Fields.{settings_of, record_of};
ghost use Rattle.exports.specs.Calls.{check_tells, pack_tells, read_tells, sizes_tells};

use answers::given::settings_of;
use answers::record::{FIELDS, numbers_of, record_of};
use answers::room::{lowest, put};
use answers::told::{TOLD, told_numbers};
use settings::refusal::Refusal;
use settings::super_opts::SuperOpts;
use settings::word::{prepare_alike, read_word};

// Bit k of given says that the k-th of the seven settings is there. Tells the record's numbers. Refusals 1 to 5, 15.
#[unsafe(no_mangle)]
pub extern "C" fn sill_check(
    given: u32,
    pel: i32,
    gpu: i32,
    down: i32,
    up: i32,
    full: i32,
    rc: i32,
    lean: i32,
    width: i32,
    height: i32,
    fields: &mut [i32],
) -> u32
    ensures { answer result fields.new ≡ check_tells (settings_of given pel gpu down up full rc lean) width height fields.old }
{
    let opt = settings_of(given, pel, gpu, down, up, full, rc, lean);
    match SuperOpts::from_opt(opt, width, height) {
        Ok(opts) => put(fields, &numbers_of(opts)),
        Err(f) => lowest(f, fields.len(), FIELDS),
    }
}

// Refusal 6.
#[unsafe(no_mangle)]
pub extern "C" fn sill_accepted(fields: &[i32]) -> u32
    ensures { result ≡ record_no (record_of fields.now) }
{
    let opts = record_of(fields);
    if opts.accepted() {
        return 0;
    }
    Refusal::NoRecord.number()
}

// Tells the word. Refusals 6, 14, 15.
#[unsafe(no_mangle)]
pub extern "C" fn sill_pack_data(fields: &[i32], word: &mut [u64]) -> u32
    ensures { answer result word.new ≡ pack_tells (record_of fields.now) word.old }
{
    let opts = record_of(fields);
    match opts.pack_data() {
        Ok(w) => put(word, &[w]),
        Err(f) => lowest(f, word.len(), 1),
    }
}

// Tells width, height, pel, levels, gpu, full, rc, lean, and of down and up whether they matter and which they are. Refusals 15, 20 to 22.
#[unsafe(no_mangle)]
pub extern "C" fn sill_read_word(word: u64, told: &mut [i32]) -> u32
    ensures { answer result told.new ≡ read_tells word told.old }
{
    match read_word(word) {
        Ok(d) => put(told, &told_numbers(d)),
        Err(f) => lowest(f, told.len(), TOLD),
    }
}

// 1 if the words stand for one preparation, else 0.
#[unsafe(no_mangle)]
pub extern "C" fn sill_prepare_alike(a: u64, b: u64) -> u32
    ensures { result ≡ bit (alike a b) }
{
    prepare_alike(a, b) as u32
}

// Tells the super width, then the super height. Refusals 6, 15.
#[unsafe(no_mangle)]
pub extern "C" fn sill_super_sizes(fields: &[i32], sizes: &mut [i32]) -> u32
    ensures { answer result sizes.new ≡ sizes_tells (record_of fields.now) sizes.old }
{
    match record_of(fields).as_accepted() {
        Ok(record) => put(sizes, &[record.super_width(), record.super_height()]),
        Err(f) => lowest(f, sizes.len(), 2),
    }
}
