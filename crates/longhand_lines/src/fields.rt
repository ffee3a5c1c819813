// Fields of a line, which single spaces part, and a field as a setting: an integer, a flag, or a lone `-`.
// First how often a byte stands in a line, and its fields; then the integer that a field is; then a setting and a flag.
ghost use Rattle.std.specs.Prelude.{◌≡◌, true, ◌≤◌, ◌^◌, pos, neg_ℤ};
ghost use Rattle.longhand_lines.specs.Fields.{times, field_at, is_decimal, plain_of, minus_of, int_of, is_byte, is_setting, is_flag, flag_of};

use lines::text::{all_digits, number_of};

// How often b stands there.
pub(crate) fn times(line: &[u8], b: u8) -> usize
    ensures { result ≡ times b line.now }
{
    line.iter().filter(|&&a| a == b).count()
}

// The field of that number, from 0 on; past the last, nothing.
pub(crate) fn field_at(line: &[u8], k: usize) -> &[u8]
    ensures { result.now ≡ field_at line.now k }
{
    line.split(|&b| b == b' ').nth(k).unwrap_or(&[])
}

// 1 to 10 digits whose number is at most `most`.
fn is_decimal(field: &[u8], most: u64) -> bool
    ensures { result ≡ is_decimal most field.now }
{
    matches!(field.len(), 1..=10) && all_digits(field, 10) && number_of(field, 10) <= most
}

fn plain_of(field: &[u8]) -> Option<i32>
    ensures { result ≡ plain_of field.now }
{
    if !is_decimal(field, 0x7fff_ffff) {
        return None;
    }
    Some(number_of(field, 10) as i32)
}

fn minus_of(field: &[u8]) -> Option<i32>
    ensures { result ≡ minus_of field.now }
{
    if !is_decimal(field, 0x8000_0000) {
        return None;
    }
    Some(negated(number_of(field, 10)))
}

// Minus n.
fn negated(n: u64) -> i32
    requires { n ≤ 2 ^ 31 }
    ensures { result ≡ neg_ℤ (pos n) }
{
    -(n as i64) as i32
}

// The integer that a field is. The library's `parse` takes a plus sign and more digits, which the rule refuses.
pub(crate) fn int_of(field: &[u8]) -> Option<i32>
    ensures { result ≡ int_of field.now }
{
    match field {
        [] => None,
        [b'-', digits @ ..] => minus_of(digits),
        _ => plain_of(field),
    }
}

fn is_byte(field: &[u8], b: u8) -> bool
    ensures { result ≡ is_byte field.now b }
{
    field.len() == 1 && field[0] == b
}

pub(crate) fn is_setting(field: &[u8]) -> bool
    ensures { result ≡ is_setting field.now }
{
    int_of(field).is_some() | is_byte(field, b'-')
}

pub(crate) fn is_flag(field: &[u8]) -> bool
    ensures { result ≡ is_flag field.now }
{
    is_byte(field, b'0') | is_byte(field, b'1') | is_byte(field, b'-')
}

pub(crate) fn flag_of(field: &[u8]) -> Option<bool>
    ensures { result ≡ flag_of field.now }
{
    if is_byte(field, b'-') {
        return None;
    }
    Some(is_byte(field, b'1'))
}
