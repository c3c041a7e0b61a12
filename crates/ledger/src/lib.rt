// Posting a file's individual records to the cells of a session.
#![tactic(auto)]

ghost use Rattle.std.specs.Prelude.{◌≡◌, not, ℕ, ◌/◌, ◌*◌, ◌^◌, ◌≤◌, ◌<◌, pos, nat_abs, ◌+ℤ◌, ◌-ℤ◌, length, get_or};
ghost use Rattle.std.specs.Int.{w64};
ghost use Rattle.std.proofs.Common.{SFits};
ghost use Rattle.paper.specs.Kinds.{code_of, collects};
ghost use Rattle.paper.specs.Reading.{records_of};
ghost use Rattle.paper.specs.Postings.{own_postings, signed};
ghost use Rattle.paper.specs.Sessions.{zero_cell, cells_after};
ghost use Rattle.paper.specs.Demands.{Touched, session_sides};
ghost use Rattle.ledger.specs.Sides.{side, sides_in_all};

use field::place::Record;
use field::{individual, kind, place};
use paper::ledger::Cell;
use paper::record::Kind;
use paper::rules::Rules;

// A position that rises by an amount, or falls by it.
#[tactic(auto, using(std::proofs::lemmas::Int::ints), unfolding(paper::specs::Postings::signed))]
fn moved(position: i64, rises: bool, amount: u64) -> i64
    requires position_bound { nat_abs position ≤ sides_in_all * 10 ^ 10 }
    requires amount_bound { amount < 10 ^ 10 }
    ensures { result ≡ position +ℤ signed rises amount }
{
    let amount = amount as i64;
    if rises {
        position + amount
    } else {
        position - amount
    }
}

// One side of a posting, counted as a record sent or as one received.
#[tactic(auto, using(std::proofs::lemmas::Int::ints), unfolding(crate::specs::Sides::side))]
fn side(c: Cell, rises: bool, amount: u64, sent: u64, received: u64) -> Cell
    requires touched { Touched sides_in_all c }
    requires amount_bound { amount < 10 ^ 10 }
    requires sent_bound { (sent ≤ 1) × (received ≤ 1) }
    ensures { result ≡ side rises amount sent received c }
{
    Cell {
        position: moved(c.position, rises, amount),
        sent: c.sent + sent,
        received: c.received + received,
    }
}

// Whether a record's sender collects.
fn collects(rec: &[u8]) -> bool
    requires { 3 ≤ length rec.now }
    ensures { result ≡ collects (code_of rec.now) }
{
    kind::collects(kind::code(rec))
}

// Each individual record is posted in place to its two cells, under the sender that it names in 80-87.
pub fn post(cells: &mut [Cell; Rules::ROSTER], file: &[u8])
    requires file_len_bound { length file.now ≤ 940000 }
    requires by_index { (i : ℕ) → Touched session_sides (get_or cells.old i zero_cell) }
    ensures { cells.new ≡ cells_after 0 (own_postings (records_of file.now)) cells.old }
{
    for place in 0..file.len() / Record::LENGTH {
        let rec = place::record_at(file, place);
        if let Kind::Individual = kind::kind(rec) {
            let collects = collects(rec);
            let amount = individual::amount(rec);
            let sender = individual::sender(rec) as usize;
            cells[sender] = side(cells[sender], collects, amount, 1, 0);
            let destination = individual::destination(rec) as usize;
            cells[destination] = side(cells[destination], !collects, amount, 0, 1);
        }
    }
}
