// The lines of the program `longhand`: a longhand record in hexadecimal is read, and settings are written as one.
// First what a line is, and its settings; then the text of each answer, put after a text; last `longhand_line`, a whole line.
ghost use Rattle.std.specs.Prelude.{◌≡◌, true, ◌++◌, ◌+◌, ◌≤◌, length, replicate};
ghost use Rattle.settings.specs.Answers.{number, checked};
ghost use Rattle.longhands.specs.Longhand.{kind1_bytes, read_as, longhand_answer, write_answer};
ghost use Rattle.lines.specs.Text.{decimal, spaced, room, Appended, Printed};
ghost use Rattle.longhand_lines.specs.Fields.{field_at, int_of, flag_of};
ghost use Rattle.longhand_lines.specs.Hex.{bytes_of, hex_text};
ghost use Rattle.longhand_lines.specs.Longhand.{is_record, are_sizes, are_numbers, are_flags, is_asked, asked_side, asked_settings, opts_text, packed_word, word_text, read_text, read_most, written_text, checked_text, asked_answer, answer_text, text_most, longhand_line};

use crate::fields::{field_at, flag_of, int_of, is_flag, is_setting, times};
use crate::hex::{spell, with_hex, with_hex_bytes};
use lines::limits::MOST_INPUT;
use lines::text::{Line, all_digits};
use longhands::longhand::{Longhand, RECORD, UNKNOWN_KIND, Unread, read_longhand, write_longhand};
use settings::refusal::Refusal;
use settings::super_opts::{Settings, SuperOpts};

fn is_record(line: &[u8]) -> bool
    ensures { result ≡ is_record line.now }
{
    (2 <= line.len()) & (line.len() <= MOST_INPUT) & (line.len() % 2 == 0) & all_digits(line, 16)
}

fn int_at(line: &[u8], k: usize) -> Option<i32>
    ensures { result ≡ int_of (field_at line.now k) }
{
    int_of(field_at(line, k))
}

fn flag_at(line: &[u8], k: usize) -> Option<bool>
    ensures { result ≡ flag_of (field_at line.now k) }
{
    flag_of(field_at(line, k))
}

fn are_sizes(line: &[u8]) -> bool
    ensures { result ≡ are_sizes line.now }
{
    int_at(line, 0).is_some() & int_at(line, 1).is_some()
}

fn are_numbers(line: &[u8]) -> bool
    ensures { result ≡ are_numbers line.now }
{
    is_setting(field_at(line, 2))
        & is_setting(field_at(line, 3))
        & is_setting(field_at(line, 7))
        & is_setting(field_at(line, 8))
}

fn are_flags(line: &[u8]) -> bool
    ensures { result ≡ are_flags line.now }
{
    is_flag(field_at(line, 4)) & is_flag(field_at(line, 5)) & is_flag(field_at(line, 6))
}

#[tactic(auto, unfolding(crate::specs::Longhand::is_asked))]
fn is_asked(line: &[u8]) -> bool
    ensures { result ≡ is_asked line.now }
{
    (times(line, b' ') == 8) & are_sizes(line) & are_numbers(line) & are_flags(line)
}

fn asked_side(line: &[u8], k: usize) -> i32
    ensures { result ≡ asked_side line.now k }
{
    int_at(line, k).unwrap_or(0)
}

#[tactic(auto, unfolding(crate::specs::Longhand::asked_settings))]
fn asked_settings(line: &[u8]) -> Settings
    ensures { result ≡ asked_settings line.now }
{
    Settings {
        pel: int_at(line, 2),
        gpu: int_at(line, 3),
        down: int_at(line, 7),
        up: int_at(line, 8),
        full: flag_at(line, 4),
        rc: flag_at(line, 5),
        lean: flag_at(line, 6),
    }
}

fn checked(line: &[u8]) -> Result<SuperOpts, Refusal>
    ensures { checked result ≡ asked_answer line.now }
{
    let width = asked_side(line, 0);
    let height = asked_side(line, 1);
    SuperOpts::from_opt(asked_settings(line), width, height)
}

// A record's word; 0 where it isn't packed.
fn packed_word(opts: SuperOpts) -> u64
    ensures { result ≡ packed_word opts }
{
    opts.pack_data().unwrap_or(0)
}

fn with_opts(text: Line, opts: SuperOpts) -> Line
    requires { length text + 195 ≤ room }
    ensures { Appended text result (opts_text opts) 195 }
{
    text.with_int(opts.width)
        .with_int(opts.height)
        .with_int(opts.pel)
        .with_int(opts.gpu)
        .with_flags(opts.full, opts.rc, opts.lean)
        .with_int(opts.scale_down)
        .with_int(opts.scale_up)
}

fn with_packed_word(text: Line, opts: SuperOpts) -> Line
    requires { length text + 17 ≤ room }
    ensures { Appended text result (word_text opts) 17 }
{
    with_hex(text.with_byte(b' '), packed_word(opts), 16)
}

fn with_spelled(text: Line, opts: SuperOpts) -> Line
    requires { length text + 212 ≤ room }
    ensures { Appended text result (opts_text opts ++ word_text opts) 212 }
{
    with_packed_word(with_opts(text, opts), opts)
}

fn with_place(text: Line, no: u64, after: usize) -> Line
    requires { length text + 41 ≤ room }
    ensures { Appended text result (decimal no ++ spaced (decimal after)) 41 }
{
    text.with_decimal(no).with_number(after as u64)
}

fn with_refused(text: Line, f: Refusal) -> Line
    requires { length text + 20 ≤ room }
    ensures { Appended text result (decimal (number f)) 20 }
{
    text.with_decimal(f.number() as u64)
}

#[tactic(auto, unfolding(crate::specs::Longhand::read_text))]
fn with_read(text: Line, r: Result<Longhand, Unread>) -> Line
    requires { length text + 253 ≤ room }
    ensures { Appended text result (read_text (read_as r)) (read_most (read_as r)) }
{
    match r {
        Ok(h) => with_spelled(with_place(text, 0, h.after), h.opts),
        Err(Unread::Kind(after)) => with_place(text, UNKNOWN_KIND as u64, after),
        Err(Unread::Refused(f)) => with_refused(text, f),
    }
}

fn with_record(text: Line, line: &[u8]) -> Line
    requires { (length text + 253 ≤ room) × (is_record line.now ≡ true) }
    ensures { Appended text result (read_text (longhand_answer (bytes_of line.now))) (read_most (longhand_answer (bytes_of line.now))) }
{
    // Of fixed size, for the longest line: nothing here is on a heap.
    let mut bytes = [0u8; MOST_INPUT / 2];
    spell(line, &mut bytes);
    let n = line.len() / 2;
    with_read(text, read_longhand(&bytes[..n]))
}

fn with_written_bytes(text: Line, bytes: &[u8]) -> Line
    requires { (length text + 63 ≤ room) × (length bytes.now ≤ kind1_bytes) }
    ensures { Appended text result (decimal 0 ++ spaced (hex_text bytes.now)) 63 }
{
    with_hex_bytes(text.with_decimal(0).with_byte(b' '), bytes)
}

#[tactic(auto, unfolding(crate::specs::Longhand::written_text))]
fn with_written(text: Line, opts: SuperOpts) -> Line
    requires { length text + 63 ≤ room }
    ensures { Appended text result (written_text (write_answer opts (replicate kind1_bytes 0))) 63 }
{
    let mut bytes = [0u8; RECORD];
    match write_longhand(opts, &mut bytes) {
        Ok(()) => with_written_bytes(text, &bytes),
        Err(f) => with_refused(text, f),
    }
}

#[tactic(auto, unfolding(crate::specs::Longhand::checked_text))]
fn with_checked(text: Line, c: Result<SuperOpts, Refusal>) -> Line
    requires { length text + 63 ≤ room }
    ensures { Appended text result (checked_text (checked c)) 63 }
{
    match c {
        Ok(opts) => with_written(text, opts),
        Err(f) => with_refused(text, f),
    }
}

#[tactic(auto, using(crate::proofs::Lengths::record_fits, crate::proofs::Lengths::asked_fits), unfolding(crate::specs::Longhand::answer_text))]
fn with_answer(text: Line, line: &[u8]) -> Line
    requires { length text + 253 ≤ room }
    ensures { Appended text result (answer_text line.now) (text_most (length line.now)) }
{
    if is_record(line) {
        return with_record(text, line);
    }
    if is_asked(line) {
        return with_checked(text, checked(line));
    }
    text.with_byte(b'-')
}

// The line that is printed for a line of the input.
pub fn longhand_line(line: &[u8]) -> Line
    ensures { Printed (length line.now) result (longhand_line line.now) }
{
    with_answer(Line::new(), line).with_byte(b'\n')
}
