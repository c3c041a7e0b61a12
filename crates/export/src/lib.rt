// The library for programs in Rust, and, by `export_c`, in C: functions on numbers and byte slices.
#![tactic(auto)]

ghost use Rattle.std.specs.Prelude.{◌≡◌, Ok, Err, IfOk, IfErr};
ghost use Rattle.paper.specs.Answers.{said, number_of};
ghost use Rattle.paper.specs.Listing.{currency_if, positions_of};
ghost use Rattle.listing.specs.Room.{Written};
ghost use Rattle.export.specs.Spoken.{spoken_of, spoken_by, not_opened, session_of, OpenedFor, read_of};
ghost use Rattle.desk.specs.Standing.{standing};
ghost use Rattle.desk.specs.Calls.{Reachable};

use desk::{Reply, Session, rules};
use listing::Listing;
use paper::answer::{Fault, Refusal};
use paper::rules::Currency;

pub mod companies;
pub mod day;
pub mod extracts;
mod figures;
pub mod member;
mod pairs;
pub mod trays;

// An answer in the paper's numbers: 0 and the number of records, or the refusal number and its place. No Result: the C interface.
#[repr(C)]
#[derive(Clone, Copy)]
pub struct Spoken {
    pub number: u64,
    pub place: u64,
}

impl Spoken {
    // The place of a refused opening: no record stands there.
    pub const OPENING: u64 = 18_446_744_073_709_551_615;
}

// Figure f of entity e stands at index f * 500 + e: a later figure is appended, and no index moves. No enum: the C interface.
#[derive(Clone, Copy)]
pub struct Figure;

impl Figure {
    // The position in cents.
    pub const POSITION: usize = 0;
    // The individual records sent.
    pub const SENT: usize = 1;
    // The individual records received.
    pub const RECEIVED: usize = 2;
    // How many figures there are.
    pub const FIGURES: usize = 3;
}

// By a flag, and not by a Currency: the C interface.
fn currency(dollars: bool) -> Currency
    ensures { result ≡ currency_if dollars }
{
    if dollars {
        return Currency::Dollars;
    }
    Currency::Pesos
}

// 0 and what was counted, or the refusal number and its place.
#[tactic(auto, unfolding(crate::specs::Spoken::spoken_of))]
fn speak(answer: Result<usize, Refusal>) -> Spoken
    ensures { result ≡ spoken_by answer }
{
    match answer {
        Ok(count) => Spoken {
            number: 0,
            place: count as u64,
        },
        Err(refusal) => Spoken {
            number: refusal.fault.number(),
            place: refusal.place as u64,
        },
    }
}

// The same of an answer that counts nothing, on so many records.
#[tactic(auto, unfolding(crate::specs::Spoken::spoken_of))]
fn speak_of(records: usize, answer: Result<(), Refusal>) -> Spoken
    ensures { result ≡ spoken_of records (said answer) }
{
    speak(answer.map(|()| records))
}

// A refused opening, told apart from what a job answers in the session of nobody.
#[tactic(auto, unfolding(crate::specs::Spoken::not_opened))]
fn not_opened(fault: Fault) -> Spoken
    ensures { result ≡ not_opened (number_of fault) }
{
    Spoken {
        number: fault.number(),
        place: Spoken::OPENING,
    }
}

// An opening with this date, currency and list of entities.
fn open(date: u64, dollars: bool, entities: &[u64]) -> Reply
    ensures { OpenedFor date dollars entities.now result × Reachable result.session }
{
    Session::open(date, currency(dollars), entities)
}

// The session opened, or what is said of a refused opening. It is lent: a session is long to copy. Callers match on it and hand over no closure: nothing is
// known of a lent buffer that a closure wrote to.
#[tactic(auto, unfolding(crate::specs::Spoken::session_if))]
fn opened(reply: &Reply) -> Result<&Session, Spoken>
    ensures session { IfOk result (λ session. (Ok (standing session.now) ≡ session_of reply.now) × (session.now ≡ reply.now.session)) }
    ensures refusal { IfErr result (λ spoken. Err spoken ≡ session_of reply.now) }
{
    match reply.answer {
        Ok(()) => Ok(&reply.session),
        Err(refusal) => Err(not_opened(refusal.fault)),
    }
}

// A file read in a session opened with this date, currency and list of entities: 0 and the number of records, or the refusal.
pub fn shaydhoqel_read(date: u64, dollars: bool, entities: &[u64], file: &[u8]) -> Spoken
    ensures { read_of date dollars entities.now file.now ≡ record { spoken = result; lent = tt } }
{
    let opened = rules::open(date, currency(dollars), entities);
    match opened.answer {
        Ok(()) => speak_of(
            file.len() / Session::RECORD,
            rules::read(&opened.rules, file),
        ),
        Err(refusal) => not_opened(refusal.fault),
    }
}

// What the program `positions` prints for this input, and how many bytes that is.
pub fn shaydhoqel_listing(input: &[u8], out: &mut [u8; Listing::ROOM]) -> u64
    ensures { Written (positions_of input.now) result out.old out.new }
{
    listing::positions(input, out) as u64
}
