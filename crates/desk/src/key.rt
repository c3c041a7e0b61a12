// The key of a file: the origin's entity number without branch, and the identifier.
ghost use Rattle.std.specs.Prelude.{◌≡◌, ◌||◌, ◌<◌, T, leb};
ghost use Rattle.paper.specs.Fields.{digit, capital};
ghost use Rattle.paper.specs.Sessions.{identifier_if};
ghost use Rattle.desk.specs.Standing.{keyed, key_if};

use crate::Session;
use characters::text;
use field::entity;
use field::place::Record;

// An origin has so many identifiers.
const IDENTIFIERS: usize = 36;

// Keys are below this.
pub const KEYS: usize = Session::ROSTER * IDENTIFIERS;

// 0 to 9, then A to Z, as 0 to 35.
#[tactic(auto, using(crate::proofs::Keys::identifiers))]
fn identifier(b: u8) -> usize
    requires { T (digit b || capital b) }
    ensures { (result ≡ identifier_if (leb b 57) b) × (result < 36) }
{
    if b <= b'9' {
        return (b - b'0') as usize;
    }
    (b - b'A') as usize + 10
}

// Of a file that no reading would accept, for its length or its identifier, it is 0; no Option, since the clause says so of any file.
pub fn key(file: &[u8]) -> usize
    ensures { (result ≡ key_if (keyed file.now) file.now) × (result < 18000) }
{
    if file.len() < Record::LENGTH {
        return 0;
    }
    if !text::identifier(file, 34) {
        return 0;
    }
    let origin = entity::entity(file, 15, 22) as usize;
    origin * IDENTIFIERS + identifier(file[33])
}
