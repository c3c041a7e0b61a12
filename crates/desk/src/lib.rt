// The desk: a session of one date, one currency and a roster of entities, and the jobs that take one.
#![tactic(auto)]

ghost use Rattle.std.specs.Prelude.{◌≡◌};
ghost use Rattle.paper.specs.Listing.{numbers_to};
ghost use Rattle.desk.specs.Standing.{standing, holding_zeros};
ghost use Rattle.desk.specs.Calls.{Opens, Reads, Presents, Extracts, Builds, Strips, Holds, HoldsAll, Reachable};

use field::place::Record;
use paper::answer::Refusal;
use paper::ledger::Cell;
use paper::rules::{Currency, Rules};
use reading::Reading;

mod answers;
mod key;
mod member;
mod roster;
pub mod rules;

#[derive(Clone, Copy)]
pub struct Session {
    rules: Rules,
    // what each entity holds
    cells: [Cell; Session::ROSTER],
    // whether an identifier was accepted from an origin
    used: [bool; key::KEYS],
}

// The session that opening hands back, with its answer. Beside it and not in its Ok: document 01 has a refusal hand back a session too.
#[derive(Clone, Copy)]
pub struct Reply {
    pub answer: Result<(), Refusal>,
    pub session: Session,
}

// A new session holds zeros.
fn new(rules: Rules) -> Session
    ensures { standing result ≡ holding_zeros rules }
{
    Session {
        rules,
        cells: [Cell::ZERO; Session::ROSTER],
        used: [false; key::KEYS],
    }
}

impl Session {
    // Bytes of a record.
    pub const RECORD: usize = Record::LENGTH;
    // Bytes of a file, at most.
    pub const FILE_LIMIT: usize = Reading::LONGEST;
    // Entity numbers are below this.
    pub const ROSTER: usize = Rules::ROSTER;
    // The highest entity number.
    pub const LAST: u64 = Currency::LAST;
    // How many entities there are.
    pub const EVERYBODY: usize = Session::LAST as usize;
    // 000101
    pub const FIRST_DATE: u64 = 101;

    // The roster of all: 1 to 499.
    pub fn everybody() -> [u64; Session::EVERYBODY]
        ensures { result ≡ numbers_to 499 }
    {
        let mut entities = [0u64; Session::EVERYBODY];
        for i in 0..Session::EVERYBODY {
            entities[i] = i as u64 + 1;
        }
        entities
    }

    // A bad date is 75; then a number not 1 to 499 is 208.
    pub fn open(date: u64, currency: Currency, entities: &[u64]) -> Reply
        ensures { Opens date currency entities.now result × Reachable result.session }
    {
        let opened = rules::open(date, currency, entities);
        Reply {
            answer: opened.answer,
            session: new(opened.rules),
        }
    }

    pub fn read(&self, file: &[u8]) -> Result<(), Refusal>
        ensures { Reads self.now file.now result }
    {
        rules::read(&self.rules, file)
    }

    // The reading's refusals, then 209. A refusal leaves the session as it is and uses up no identifier.
    pub fn present(&mut self, file: &[u8]) -> Result<(), Refusal>
        requires { Reachable self.old }
        ensures { Presents self.old file.now (record { answer = result; session = self.new }) × Reachable self.new }
    {
        self.read(file)?;
        let key = key::key(file);
        answers::unless_used(self.used[key])?;
        ledger::post(&mut self.cells, file);
        self.used[key] = true;
        Ok(())
    }

    // 208, the reading's refusals, then 206; each leaves the buffer as it was. The rest of the buffer stays.
    #[tactic(auto, using(paper::proofs::Chained::chained), unfolding(paper::specs::Buffers::extracting, paper::specs::Buffers::entity_given))]
    pub fn extract(&self, entity: u64, file: &[u8], out: &mut [u8]) -> Result<usize, Refusal>
        ensures { Extracts self.now entity file.now out.old result out.new }
    {
        roster::entity_given(&self.rules.roster, entity)?;
        rules::read(&self.rules, file)?;
        extract::extract(self.rules.currency, entity, file, out)
    }

    // 207, 201, 206, each leaving the buffer as it was; then the reading's answer on the file, and spaces in its place where it refuses.
    pub fn build(&self, header: &[u8], tray: &[u8], out: &mut [u8]) -> Result<usize, Refusal>
        ensures { Builds self.now header.now tray.now out.old result out.new }
    {
        let size = building::build(header, tray, out)?;
        if let Err(refusal) = rules::read(&self.rules, &out[0..size]) {
            writing::blanks(&mut out[0..size]);
            return Err(refusal);
        }
        Ok(size)
    }

    // The reading's refusals, then 206; each leaves the buffer as it was.
    #[tactic(auto, using(paper::proofs::Chained::chained, crate::proofs::Asking::read_short), unfolding(paper::specs::Buffers::stripping))]
    pub fn strip(&self, file: &[u8], out: &mut [u8]) -> Result<usize, Refusal>
        ensures { Strips self.now file.now out.old result out.new }
    {
        rules::read(&self.rules, file)?;
        strip::strip(file, out)
    }

    // What the session holds for an entity; nothing for a number that is none.
    #[tactic(auto, unfolding(paper::specs::Sessions::cell_of))]
    pub fn cell(&self, entity: u64) -> Cell
        ensures { Holds self.now entity result }
    {
        if roster::is_entity(entity) {
            return self.cells[entity as usize];
        }
        Cell::ZERO
    }

    // The same of every entity number, to go through them.
    pub fn cells(&self) -> [Cell; Session::ROSTER]
        ensures { HoldsAll self.now result }
    {
        self.cells
    }
}
