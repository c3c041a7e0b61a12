// What a record is: its type, and the transaction code of an individual one.
ghost use Rattle.std.specs.Prelude.{◌≡◌, ◌≤◌, length};
ghost use Rattle.paper.specs.Kinds.{opens_batch, is_individual, is_additional, closes_batch, kind_of, code_of, known, is_order, takes01, collects, pays, rejects};

use paper::record::{Code, Kind};

#[tactic(auto, unfolding(paper::specs::Kinds::kind, paper::specs::Kinds::kind_of))]
pub fn kind(rec: &[u8]) -> Kind
    requires { 1 ≤ length rec.now }
    ensures { result ≡ kind_of rec.now }
{
    match rec[0] {
        b'1' => Kind::FileHeader,
        b'5' => Kind::BatchHeader,
        b'6' => Kind::Individual,
        b'7' => Kind::Additional,
        b'8' => Kind::BatchControl,
        b'9' => Kind::FileControl,
        _ => Kind::Other,
    }
}

// A 5, a 6, a 7, an 8.
pub fn opens_batch(kind: Kind) -> bool
    ensures { result ≡ opens_batch kind }
{
    matches!(kind, Kind::BatchHeader)
}

pub fn is_individual(kind: Kind) -> bool
    ensures { result ≡ is_individual kind }
{
    matches!(kind, Kind::Individual)
}

pub fn is_additional(kind: Kind) -> bool
    ensures { result ≡ is_additional kind }
{
    matches!(kind, Kind::Additional)
}

pub fn closes_batch(kind: Kind) -> bool
    ensures { result ≡ closes_batch kind }
{
    matches!(kind, Kind::BatchControl)
}

// 37, 36, 32 or 31.
#[tactic(auto, unfolding(paper::specs::Kinds::code_of, paper::specs::Fields::same))]
pub fn code(rec: &[u8]) -> Code
    requires { 3 ≤ length rec.now }
    ensures { result ≡ code_of rec.now }
{
    if rec[1] != b'3' {
        return Code::Unknown;
    }
    match rec[2] {
        b'7' => Code::Order,
        b'6' => Code::Rejection,
        b'2' => Code::Reversal,
        b'1' => Code::ReversalRejection,
        _ => Code::Unknown,
    }
}

pub fn known(code: Code) -> bool
    ensures { result ≡ known code }
{
    !matches!(code, Code::Unknown)
}

pub fn is_order(code: Code) -> bool
    ensures { result ≡ is_order code }
{
    matches!(code, Code::Order)
}

// A receiver's reversal, or the rejection of one.
pub fn takes01(code: Code) -> bool
    ensures { result ≡ takes01 code }
{
    matches!(code, Code::Order | Code::Rejection)
}

// The sender's position rises. A rejection returns a debit, so its sender collects too.
pub fn collects(code: Code) -> bool
    ensures { result ≡ collects code }
{
    matches!(code, Code::Order | Code::Rejection)
}

// The sender's position falls.
pub fn pays(code: Code) -> bool
    ensures { result ≡ pays code }
{
    matches!(code, Code::Reversal | Code::ReversalRejection)
}

// The additional record is a 99, and after the others an 05.
pub fn rejects(code: Code) -> bool
    ensures { result ≡ rejects code }
{
    matches!(code, Code::Rejection | Code::ReversalRejection)
}
