// Batches get 1, 2, .., individuals 1, 2, .. through the file; an additional gets the number of the last individual, zero if none.
ghost use Rattle.std.specs.Prelude.{◌≡◌, ◌^◌, ◌≤◌, length};
ghost use Rattle.paper.specs.Kinds.{kind_of};
ghost use Rattle.paper.specs.Writing.{numbered};
ghost use Rattle.building.specs.Numbering.{after, last_number, Few, ToStamp};

use batches::records;
use field::kind;
use paper::record::Kind;

// How many were numbered.
#[derive(Clone, Copy)]
pub struct Numbering {
    pub batches: u64,
    pub individuals: u64,
}

impl Numbering {
    pub const NONE: Numbering = Numbering {
        batches: 0,
        individuals: 0,
    };

    // One record further.
    #[tactic(auto, unfolding(crate::specs::Numbering::after, paper::specs::Trays::batches_after, paper::specs::Trays::individuals_after))]
    fn after(self, body: &[u8]) -> Numbering
        requires { (1 ≤ length body.now) × Few (10 ^ 18) self }
        ensures { result ≡ after (kind_of body.now) self }
    {
        match kind::kind(body) {
            Kind::BatchHeader => Numbering {
                batches: self.batches + 1,
                ..self
            },
            Kind::Individual => Numbering {
                individuals: self.individuals + 1,
                ..self
            },
            _ => self,
        }
    }

    // The number of the record that was counted last.
    #[tactic(auto, unfolding(crate::specs::Numbering::last_number))]
    fn number(self, body: &[u8]) -> u64
        requires { 1 ≤ length body.now }
        ensures { result ≡ last_number (kind_of body.now) self }
    {
        match kind::kind(body) {
            Kind::BatchHeader => self.batches,
            _ => self.individuals,
        }
    }

    // A record under its number, over a part of its length; what follows is numbered on from what this hands back.
    pub fn write(self, dst: &mut [u8], body: &[u8]) -> Numbering
        requires { ToStamp body.now self dst.old }
        ensures { (result ≡ after (kind_of body.now) self)
            × (dst.new ≡ numbered (last_number (kind_of body.now) result) body.now) }
    {
        let after = self.after(body);
        records::numbered(dst, body, after.number(body));
        after
    }
}
