// The fields of a line.
ghost use Rattle.std.specs.Prelude.{◌≡◌, ◌+◌, ◌-◌, ◌*◌, ◌<◌, ◌≤◌, ◌==◌, true, length, position};
ghost use Rattle.std.specs.List.{list_all};
ghost use Rattle.std.specs.Str.{all_ascii_digits};
ghost use Rattle.model.specs.Names.{padded};
ghost use Rattle.model.specs.Fields.{value_from, decimal_form, number_field, letter_or_digit, stem_form, written_mark as mark_field, name_field, origin_field};
ghost use Rattle.script.specs.Cuts.{at_most, stem_of};

use model::nodes::{Name, Origin};

// Where a byte first stands.
pub fn place_of(bytes: &[u8], byte: u8) -> Option<usize>
    ensures { result ≡ position (λ b. b == byte) bytes.now }
{
    bytes.iter().position(|b| *b == byte)
}

fn all_digits(field: &[u8]) -> bool
    ensures { result ≡ all_ascii_digits field.now }
{
    field.iter().all(|b| b.is_ascii_digit())
}

// Digits, at least one, and no leading zero.
fn is_decimal(field: &[u8]) -> bool
    ensures { result ≡ decimal_form field.now }
{
    if field.is_empty() {
        return false;
    }
    all_digits(field) && (field[0] != b'0' || field.len() == 1)
}

// The number that digits write, where it is at most `most`. By hand: the library parses text, and these are bytes.
fn value_of(digits: &[u8], most: u32) -> Option<u32>
    requires { all_ascii_digits digits.now ≡ true }
    ensures { result ≡ at_most most (value_from 0 digits.now) }
{
    let mut n: u64 = 0;
    for b in digits {
        n = n * 10 + u64::from(*b - b'0');
        if n > u64::from(most) {
            return None;
        }
    }
    // proved to lose nothing; `try_from` would have an error that cannot be
    Some(n as u32)
}

// A decimal number of at most `most`.
pub fn number(field: &[u8], most: u32) -> Option<u32>
    ensures { result ≡ number_field most field.now }
{
    if !is_decimal(field) {
        return None;
    }
    value_of(field, most)
}

// The same in 16 bits.
fn short_number(field: &[u8], most: u16) -> Option<u16>
    ensures { result ≡ number_field most field.now }
{
    let n = number(field, u32::from(most))?;
    u16::try_from(n).ok()
}

fn is_letter_or_digit(c: u8) -> bool
    ensures { result ≡ letter_or_digit c }
{
    matches!(c, b'a'..=b'z' | b'0'..=b'9')
}

fn all_letters_or_digits(rest: &[u8]) -> bool
    ensures { result ≡ list_all letter_or_digit rest.now }
{
    rest.iter().all(|c| is_letter_or_digit(*c))
}

// As many characters as a stem has at most.
const LONGEST_STEM: usize = 8;

// 1 to 8 characters, a to z first, then a to z or 0 to 9.
fn is_stem(stem: &[u8]) -> bool
    ensures { result ≡ stem_form stem.now }
{
    match stem {
        [b'a'..=b'z', rest @ ..] => rest.len() < LONGEST_STEM && all_letters_or_digits(rest),
        _ => false,
    }
}

// Zeros after the characters.
fn pad(stem: &[u8]) -> [u8; 8]
    requires { length stem.now ≤ 8 }
    ensures { result ≡ padded stem.now }
{
    let mut out = [0; 8];
    out[..stem.len()].copy_from_slice(stem);
    out
}

fn stem(bytes: &[u8]) -> Option<[u8; 8]>
    ensures { result ≡ stem_of bytes.now }
{
    if is_stem(bytes) {
        Some(pad(bytes))
    } else {
        None
    }
}

// A mark that is written is not 0.
fn mark(field: &[u8]) -> Option<u16>
    ensures { result ≡ mark_field field.now }
{
    short_number(field, 65535).filter(|mark| *mark != 0)
}

// A stem, or a stem, an apostrophe and a mark.
pub fn name(field: &[u8]) -> Option<Name>
    ensures { result ≡ name_field field.now }
{
    let Some(quote) = place_of(field, b'\'') else {
        return Some(Name {
            stem: stem(field)?,
            mark: 0,
        });
    };
    Some(Name {
        stem: stem(&field[..quote])?,
        mark: mark(&field[quote + 1..])?,
    })
}

// `o`, or `s` and a node number, or `p` and a group.
pub fn origin(field: &[u8]) -> Option<Origin>
    ensures { result ≡ origin_field field.now }
{
    match field {
        [b's', rest @ ..] => short_number(rest, 1023).map(Origin::Copied),
        [b'p', rest @ ..] => short_number(rest, 65535).map(Origin::Private),
        [b'o'] => Some(Origin::Outer),
        _ => None,
    }
}
