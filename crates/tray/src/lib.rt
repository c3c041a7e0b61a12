// A tray: records of 96 bytes, a two-byte mark before each 94-byte body.
#![tactic(auto)]

ghost use Rattle.std.specs.Prelude.{◌≡◌, ◌+◌, ◌*◌, ◌≤◌, ◌++◌, length, take, drop};
ghost use Rattle.paper.specs.Answers.{said};
ghost use Rattle.paper.specs.Kinds.{kind_of};
ghost use Rattle.paper.specs.Trays.{mark_good, tray_record_good, tray_records, tray_fault};
ghost use Rattle.paper.specs.Buffers.{tray_answer};
ghost use Rattle.tray.specs.Trays.{tray_record_at, body_at, bodies, batches_in};

use characters::text;
use field::kind;
use field::place::Record;
use paper::answer::{Fault, Refusal};
use paper::record::Kind;

pub mod pieces;

#[derive(Clone, Copy)]
pub struct Tray {}

impl Tray {
    // Bytes of a mark.
    pub const MARK: usize = 2;
    // Bytes of a record, its mark before its body.
    pub const RECORD: usize = Tray::MARK + Record::LENGTH;
}

// The record at a place, where each has N bytes.
#[tactic(auto, using(std::proofs::lemmas::Grind::common_steps))]
pub fn record_at<const N: usize>(bytes: &[u8], place: usize) -> &[u8]
    requires { place * N + N ≤ length bytes.now }
    ensures { (result.now ≡ take N (drop (place * N) bytes.now)) × (length result.now ≡ N) }
{
    let at = place * N;
    &bytes[at..at + N]
}

#[tactic(auto, using(crate::proofs::Places::body_behind, paper::proofs::Round::body), unfolding(crate::specs::Trays::body_at, crate::specs::Trays::tray_record_at))]
pub fn body_at(tray: &[u8], place: usize) -> &[u8]
    requires { place * 96 + 96 ≤ length tray.now }
    ensures { (result.now ≡ body_at tray.now place) × (length result.now ≡ 94) }
{
    &record_at::<{ Tray::RECORD }>(tray, place)[Tray::MARK..]
}

// The mark that goes with a body's first byte.
#[tactic(auto, using(crate::proofs::Places::mark_length), unfolding(paper::specs::Trays::mark_good))]
fn mark_good(mark: &[u8], body: &[u8]) -> bool
    requires { (length mark.now ≡ 2) × (length body.now ≡ 94) }
    ensures { result ≡ mark_good (kind_of body.now) mark.now }
{
    match kind::kind(body) {
        Kind::BatchHeader => text::reads(mark, 1, 2, b"LO"),
        Kind::Individual => text::reads(mark, 1, 2, b"IN"),
        Kind::Additional => text::reads(mark, 1, 2, b"AD"),
        _ => false,
    }
}

// A record that stands on a tray, or is to be put on one: its mark and its body.
#[tactic(auto, using(crate::proofs::Places::good_parts))]
pub fn good(mark: &[u8], body: &[u8]) -> bool
    requires { (length mark.now ≡ 2) × (length body.now ≡ 94) }
    ensures { result ≡ tray_record_good (mark.now ++ body.now) }
{
    mark_good(mark, body) && text::reads(body, 88, 94, b"0000000")
}

#[tactic(auto, using(crate::proofs::Places::joined), unfolding(crate::specs::Trays::tray_record_at))]
fn good_at(tray: &[u8], place: usize) -> bool
    requires { place * 96 + 96 ≤ length tray.now }
    ensures { result ≡ tray_record_good (tray_record_at tray.now place) }
{
    let (mark, body) = record_at::<{ Tray::RECORD }>(tray, place).split_at(Tray::MARK);
    good(mark, body)
}

// 207 at the first bad record.
#[tactic(auto, using(crate::proofs::Passing::stops, crate::proofs::Passing::goes_on, crate::proofs::Passing::ends))]
fn fault(tray: &[u8]) -> Result<(), Refusal>
    ensures { said result ≡ tray_fault 0 (tray_records tray.now) }
{
    let records = tray.len() / Tray::RECORD;
    for place in 0..records {
        if !good_at(tray, place) {
            return Err(Fault::Tray.at(place));
        }
    }
    Ok(())
}

// Lengths first, at 0.
#[tactic(auto, using(paper::proofs::Chained::chained, std::proofs::lemmas::Bool::Decides::nat_tests), unfolding(paper::specs::Buffers::tray_answer))]
pub fn answer(header: &[u8], tray: &[u8]) -> Result<(), Refusal>
    ensures { said result ≡ tray_answer header.now tray.now }
{
    if header.len() != Record::LENGTH || tray.len() % Tray::RECORD != 0 {
        return Err(Fault::Tray.at(0));
    }
    fault(tray)
}

// How many of its records open a batch, whatever else is wrong with it.
#[tactic(auto, using(crate::proofs::Passing::none_counted, crate::proofs::Passing::all_counted))]
pub fn batches(tray: &[u8]) -> usize
    ensures { (result ≡ batches_in 0 (bodies tray.now)) × (result * 96 ≤ length tray.now) }
{
    let records = tray.len() / Tray::RECORD;
    let mut count = 0;
    for place in 0..records {
        if batches::opens(body_at(tray, place)) {
            count += 1;
        }
    }
    count
}
