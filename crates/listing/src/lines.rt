// The lines of a listing, over an array of cells, and the words of an answer.
ghost use Rattle.std.specs.Prelude.{◌≡◌, [], ◌++◌, ℕ, ◌+◌, ◌*◌, ◌^◌, ◌≤◌, ◌<◌, length, get_or, nat_abs};
ghost use Rattle.paper.specs.Answers.{number_of, said, refused_by};
ghost use Rattle.paper.specs.Demands.{Touched, session_sides};
ghost use Rattle.paper.specs.Fields.{bytes};
ghost use Rattle.paper.specs.Listing.{decimal, figures_line, entity_line, plus_cell, cell_sums, listing, refusal_line};
ghost use Rattle.paper.specs.Sessions.{zero_cell};
ghost use Rattle.listing.specs.Answers.{answer_words};
ghost use Rattle.listing.specs.Room.{HasRoom, Written};
ghost use Rattle.writing.specs.Laid.{laid};

use crate::Listing;
use desk::Session;
use paper::answer::Refusal;
use paper::ledger::Cell;

// Two counts, with a blank between.
#[tactic(auto, using(crate::proofs::Written::written))]
fn counts(out: &mut [u8; Listing::ROOM], at: usize, sent: u64, received: u64) -> usize
    requires { HasRoom at 41 }
    ensures { (result ≡ at + length (decimal sent ++ bytes " " ++ decimal received))
        × (out.new ≡ laid at (decimal sent ++ bytes " " ++ decimal received) out.old) }
{
    let past_sent = writing::number(out, at, sent);
    let next = writing::text(out, past_sent, b" ");
    writing::number(out, next, received)
}

// What stands in a line after its name.
#[tactic(auto, using(crate::proofs::Written::written, crate::proofs::Written::regrouped, crate::proofs::Parts::figured), unfolding(paper::specs::Listing::figures_line))]
fn figures(out: &mut [u8; Listing::ROOM], at: usize, c: Cell) -> usize
    requires position_bound { nat_abs c.position ≤ 4 * 10 ^ 18 }
    requires has_room { HasRoom at 64 }
    ensures { (result ≡ at + length (figures_line [] c)) × (out.new ≡ laid at (figures_line [] c) out.old) }
{
    let next = writing::text(out, at, b" ");
    let past_counts = counts(out, next, c.sent, c.received);
    let net = writing::text(out, past_counts, b" ");
    let past_net = writing::signed(out, net, c.position);
    writing::text(out, past_net, b"\n")
}

// A line, where the entity sent or received.
#[tactic(auto, using(crate::proofs::Written::written, crate::proofs::Parts::lined))]
fn entity(out: &mut [u8; Listing::ROOM], at: usize, e: u64, c: Cell) -> usize
    requires e_bound { e < 1000 }
    requires position_bound { nat_abs c.position ≤ 4 * 10 ^ 18 }
    requires has_room { HasRoom at 67 }
    ensures { (result ≡ at + length (entity_line e c)) × (out.new ≡ laid at (entity_line e c) out.old) }
{
    if (c.sent == 0) & (c.received == 0) {
        return at;
    }
    let past_name = writing::number(out, at, e);
    figures(out, past_name, c)
}

// Two cells added up, figure by figure.
#[tactic(auto, using(std::proofs::lemmas::Int::ints), unfolding(paper::specs::Listing::plus_cell))]
fn plus(c: Cell, d: Cell) -> Cell
    requires { Touched session_sides (plus_cell c d) }
    ensures { result ≡ plus_cell c d }
{
    Cell {
        position: c.position + d.position,
        sent: c.sent + d.sent,
        received: c.received + d.received,
    }
}

// The heading, the entities in ascending order, last the sums. Hands back how many bytes these are.
pub fn write(cells: &[Cell; Session::ROSTER], out: &mut [u8; Listing::ROOM]) -> usize
    requires by_index { (e : ℕ) → Touched session_sides (get_or cells.now e zero_cell) }
    requires by_index_2 { (n : ℕ) → n ≤ 499 → Touched session_sides (cell_sums n cells.now) }
    ensures { Written (listing cells.now) result out.old out.new }
{
    let mut at = writing::text(out, 0, b"ENTITY SENT RECEIVED NET\n");
    let mut sums = Cell::ZERO;
    for n in 1..=Session::EVERYBODY {
        let c = cells[n];
        at = entity(out, at, n as u64, c);
        sums = plus(sums, c);
    }
    at = writing::text(out, at, b"SUM");
    figures(out, at, sums)
}

// A refusal in its words.
#[tactic(auto, using(crate::proofs::Written::written), unfolding(crate::specs::Answers::answer_words))]
fn refused(out: &mut [u8], at: usize, refusal: Refusal) -> usize
    requires { at + 52 ≤ length out.old }
    ensures { (result ≡ at + length (answer_words (refused_by refusal)))
        × (out.new ≡ laid at (answer_words (refused_by refusal)) out.old) }
{
    let word = writing::text(out, at, b"REFUSED ");
    let past_number = writing::number(out, word, refusal.fault.number());
    let between = writing::text(out, past_number, b" AT ");
    writing::number(out, between, refusal.place as u64)
}

// The line that stands in place of a listing.
#[tactic(auto, using(crate::proofs::Written::written), unfolding(paper::specs::Listing::refusal_line, crate::specs::Answers::answer_words))]
pub fn refusal(out: &mut [u8], at: usize, refusal: Refusal) -> usize
    requires { at + 53 ≤ length out.old }
    ensures { (result ≡ at + length (refusal_line (number_of refusal.fault) refusal.place))
        × (out.new ≡ laid at (refusal_line (number_of refusal.fault) refusal.place) out.old) }
{
    let past_words = refused(out, at, refusal);
    writing::text(out, past_words, b"\n")
}

// An answer in its words.
#[tactic(auto, using(crate::proofs::Written::written), unfolding(crate::specs::Answers::answer_words))]
pub fn answer(out: &mut [u8], at: usize, answer: Result<(), Refusal>) -> usize
    requires { at + 52 ≤ length out.old }
    ensures { (result ≡ at + length (answer_words (said answer)))
        × (out.new ≡ laid at (answer_words (said answer)) out.old) }
{
    match answer {
        Ok(()) => writing::text(out, at, b"ACCEPTED"),
        Err(refusal) => refused(out, at, refusal),
    }
}
