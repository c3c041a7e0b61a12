// What the desk prints: the listing of a session, or the line of an answer.
#![tactic(auto)]

ghost use Rattle.paper.specs.Listing.{listing, positions_of};
ghost use Rattle.desk.specs.Standing.{standing};
ghost use Rattle.desk.specs.Calls.{Reachable};
ghost use Rattle.listing.specs.Room.{Written};

use desk::Session;
use paper::answer::Fault;
use reasons::Shown;

pub mod answers;
pub mod input;
mod lines;
pub mod reason;
mod shown;

// What a listing can be at most.
#[derive(Clone, Copy)]
pub struct Listing;

impl Listing {
    // Bytes of the program's input, at most.
    pub const INPUT: usize = 65424;
    // Bytes of the heading.
    const HEADING: usize = 25;
    // Bytes of a line, at most.
    pub const LINE: usize = 67;
    // Bytes of a name, at most: no system takes a longer one.
    pub const NAME: usize = 4096;
    // Bytes of a line that ends in a name, at most.
    pub const NAMED: usize = Listing::LINE + 1 + Listing::NAME;
    // Bytes of a roster's word that are shown, at most.
    pub const WORD: usize = 64;
    // Bytes of a line that ends in such a word, at most.
    pub const WORD_LINE: usize = Listing::LINE + Listing::WORD;
    // Bytes of the line of a reason, at most: a place, R and its number, and the text, each with what parts it from the next.
    pub const REASON: usize = 21 + 4 + Shown::TEXT + 1;
    // The longest listing: the heading, a line for each entity, and one for the sums in place of number 0.
    pub const ROOM: usize = Listing::HEADING + Session::ROSTER * Listing::LINE;
}

// The listing of a session.
pub fn print(session: &Session, out: &mut [u8; Listing::ROOM]) -> usize
    requires { Reachable session.now }
    ensures { Written (listing (standing session.now).cells) result out.old out.new }
{
    lines::write(&session.cells(), out)
}

// What the program `positions` prints for its input.
#[tactic(auto, using(crate::proofs::Written::written, crate::proofs::Printing::too_long))]
pub fn positions(input: &[u8], out: &mut [u8; Listing::ROOM]) -> usize
    ensures { Written (positions_of input.now) result out.old out.new }
{
    if Listing::INPUT < input.len() {
        return lines::refusal(out, 0, Fault::Length.at(0));
    }
    let everybody = Session::everybody();
    let opened = Session::open(input::date(input), input::currency(input), &everybody);
    let mut session = opened.session;
    match session.present(input) {
        Ok(()) => print(&session, out),
        Err(refusal) => lines::refusal(out, 0, refusal),
    }
}
