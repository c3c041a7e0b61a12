// The number in a field.
ghost use Rattle.std.specs.Prelude.{◌≡◌, ◌+◌, ◌-◌, ◌^◌, ◌<◌, ◌≤◌, T, length};
ghost use Rattle.paper.specs.Fields.{field, within, digits, value, number, spells};
ghost use Rattle.characters.specs.Part.{HasField};

use crate::{byte, text};

pub fn within(low: u64, high: u64, n: u64) -> bool
    ensures { result ≡ within low high n }
{
    (low..=high).contains(&n)
}

// No early way out, as over characters.
fn all_digits(s: &[u8]) -> bool
    ensures { result ≡ digits s.now }
{
    s.iter().fold(true, |good, b| good & byte::digit(*b))
}

// The low four bits of a digit are its value. No test here: the loop then has no branch, and the digits are tested beside it.
fn low_value(s: &[u8]) -> u64
    requires { length s.now ≤ 18 }
    ensures { T (digits s.now) → result ≡ value s.now }
{
    let mut sum: u64 = 0;
    for b in s {
        sum = sum * 10 + (*b % 16) as u64;
    }
    sum
}

pub fn digits(rec: &[u8], first: usize, last: usize) -> bool
    requires { HasField rec.now first last }
    ensures { result ≡ digits (field rec.now first last) }
{
    all_digits(text::part(rec, first, last))
}

// Nothing where the field is not all digits. Eighteen digits always fit.
pub fn number(rec: &[u8], first: usize, last: usize) -> u64
    requires has_field { HasField rec.now first last }
    requires last_bound { last ≤ first + 17 }
    ensures { (result ≡ number (field rec.now first last)) × (result < 10 ^ (last + 1 - first)) }
{
    let s = text::part(rec, first, last);
    let n = low_value(s);
    if all_digits(s) {
        return n;
    }
    0
}

pub fn spells(rec: &[u8], first: usize, last: usize, n: u64) -> bool
    requires has_field { HasField rec.now first last }
    requires last_bound { last ≤ first + 17 }
    ensures { result ≡ spells (field rec.now first last) n }
{
    let s = text::part(rec, first, last);
    all_digits(s) & (low_value(s) == n)
}
