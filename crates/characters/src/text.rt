// The bytes of a field.
ghost use Rattle.std.specs.Prelude.{◌≡◌, ◌+◌, ◌-◌, length};
ghost use Rattle.paper.specs.Fields.{field, every, good, blank, identifier_field, same};
ghost use Rattle.characters.specs.Part.{HasField};

use crate::byte;

// Positions first to last of a record, both of them included.
pub fn part(rec: &[u8], first: usize, last: usize) -> &[u8]
    requires { HasField rec.now first last }
    ensures { (result.now ≡ field rec.now first last) × (length result.now ≡ last + 1 - first) }
{
    let start = first - 1;
    &rec[start..last]
}

// No early way out: the loop is then compiled to many bytes at a time.
pub fn all_good(s: &[u8]) -> bool
    ensures { result ≡ every good s.now }
{
    s.iter().fold(true, |good, b| good & byte::good(*b))
}

// No early way out either: how many blanks a text begins with, nobody can foretell.
fn all_blank(s: &[u8]) -> bool
    ensures { result ≡ blank s.now }
{
    s.iter().fold(true, |blank, b| blank & (b' ' == *b))
}

pub fn blank(rec: &[u8], first: usize, last: usize) -> bool
    requires { HasField rec.now first last }
    ensures { result ≡ blank (field rec.now first last) }
{
    all_blank(part(rec, first, last))
}

// Of any two lengths. Not by `==`, for speed: that makes a call, and of this the compiler makes a step or two where it knows the lengths.
fn equal(a: &[u8], b: &[u8]) -> bool
    ensures { result ≡ same a.now b.now }
{
    if a.len() != b.len() {
        return false;
    }
    b.starts_with(a)
}

// Whether two fields, of one record or of two, are the same.
pub fn same(rec: &[u8], first: usize, last: usize, other: &[u8], from: usize, to: usize) -> bool
    requires has_field { HasField rec.now first last }
    requires has_field_2 { HasField other.now from to }
    ensures { result ≡ same (field rec.now first last) (field other.now from to) }
{
    equal(part(rec, first, last), part(other, from, to))
}

// Whether a field is this fixed text.
pub fn reads(rec: &[u8], first: usize, last: usize, text: &[u8]) -> bool
    requires { HasField rec.now first last }
    ensures { result ≡ same (field rec.now first last) text.now }
{
    equal(part(rec, first, last), text)
}

// A digit or a capital at one position.
pub fn identifier(rec: &[u8], at: usize) -> bool
    requires { HasField rec.now at at }
    ensures { result ≡ identifier_field (field rec.now at at) }
{
    let b = rec[at - 1];
    byte::digit(b) | byte::capital(b)
}
