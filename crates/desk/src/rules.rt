// What a session is opened with: its date, currency and roster. The jobs that ask for no more need no session that is kept.
ghost use Rattle.std.specs.Prelude.{◌≡◌, true, []};
ghost use Rattle.paper.specs.declared.rules.Currency.TheVariants.{Pesos};
ghost use Rattle.paper.specs.Answers.{number_of, refused};
ghost use Rattle.paper.specs.Fields.{every, within};
ghost use Rattle.paper.specs.Sessions.{listed};
ghost use Rattle.desk.specs.Standing.{rules_listed};
ghost use Rattle.desk.specs.Calls.{OpensRules, ReadsBy, opened_to};

use crate::{Session, answers, roster};
use field::date;
use paper::answer::{Fault, Refusal};
use paper::rules::{Currency, Reader, Rules};

// The rules of the session that an opening returns, with its answer. Beside it and not in its Ok: document 01 has a refusal hand back a session too.
#[derive(Clone, Copy)]
pub struct Opened {
    pub answer: Result<(), Refusal>,
    pub rules: Rules,
}

// The list may be in any order, with repeats, or empty.
fn marks(entities: &[u64]) -> [bool; Session::ROSTER]
    requires { every (within 1 499) entities.now ≡ true }
    ensures { result ≡ listed 500 0 entities.now }
{
    let mut roster = [false; Session::ROSTER];
    for entity in entities {
        roster[*entity as usize] = true;
    }
    roster
}

fn new(date: u64, currency: Currency, entities: &[u64]) -> Rules
    requires { every (within 1 499) entities.now ≡ true }
    ensures { result ≡ rules_listed date currency entities.now }
{
    let roster = marks(entities);
    Rules {
        date,
        currency,
        roster,
    }
}

// A refused opening returns a session of 000101, pesos, empty roster.
#[tactic(auto, unfolding(paper::specs::Fields::every))]
fn not_opened(fault: Fault) -> Opened
    ensures { opened_to result ≡ record { answer = refused (number_of fault) 0; rules = rules_listed 101 Pesos [] } }
{
    let nobody: [u64; 0] = [];
    Opened {
        answer: Err(fault.at(0)),
        rules: new(Session::FIRST_DATE, Currency::Pesos, &nobody),
    }
}

// A bad date is 75; then a number not 1 to 499 is 208.
#[tactic(auto, using(paper::proofs::Chained::chained, crate::proofs::Replies::opened), unfolding(paper::specs::Sessions::opening, paper::specs::Sessions::opening_answer))]
pub fn open(date: u64, currency: Currency, entities: &[u64]) -> Opened
    ensures { OpensRules date currency entities.now result }
{
    if !date::is_date(date) {
        return not_opened(Fault::Date);
    }
    if !roster::all_entities(entities) {
        return not_opened(Fault::Entity);
    }
    Opened {
        answer: Ok(()),
        rules: new(date, currency, entities),
    }
}

// The reading of a session of these rules.
#[tactic(auto, unfolding(paper::specs::Reading::reading))]
pub fn read(rules: &Rules, file: &[u8]) -> Result<(), Refusal>
    ensures { ReadsBy rules.now file.now result }
{
    answers::read_by(Reader::House, rules, file)
}
