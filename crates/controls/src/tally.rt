// What the controls count.
ghost use Rattle.std.specs.Prelude.{◌≡◌, cond, ◌+◌, ◌^◌, ◌≤◌, ◌<◌, length};
ghost use Rattle.paper.specs.Controls.{plus, with_individual, with_additional};
ghost use Rattle.controls.specs.Bounds.{Below};

use field::place::Record;
use field::{individual, kind};
use paper::record::Tally;

// An amount on the side where it counts, nothing on the other.
fn on_side(counts: bool, amount: u64) -> u64
    ensures { (result ≡ cond counts amount 0) × (result ≤ amount) }
{
    if counts { amount } else { 0 }
}

// One individual record more, by its field 4-11 and its amount, which stands on one side: so no branch goes by the code.
pub fn with_entry(tally: Tally, destination: u64, debit: bool, amount: u64) -> Tally
    requires destination_bound { (destination < 10 ^ 8) × (amount < 10 ^ 10) }
    requires below { Below (10 ^ 18) tally }
    ensures { result ≡ record {
      records = tally.records + 1;
      destinations = tally.destinations + destination;
      debits = tally.debits + cond debit amount 0;
      credits = tally.credits + cond debit 0 amount;
    } }
{
    let debited = on_side(debit, amount);
    Tally {
        records: tally.records + 1,
        destinations: tally.destinations + destination,
        debits: tally.debits + debited,
        credits: tally.credits + (amount - debited),
    }
}

// What is no code of the paper's counts on neither side.
#[tactic(auto, using(crate::proofs::Sides::sides), unfolding(paper::specs::Controls::with_individual))]
pub fn with_individual(tally: Tally, rec: &[u8; Record::LENGTH]) -> Tally
    requires below { Below (10 ^ 18) tally }
    ensures { result ≡ with_individual tally rec.now }
{
    let destination = individual::destination_field(rec);
    let code = kind::code(rec);
    let amount = on_side(kind::known(code), individual::amount(rec));
    with_entry(tally, destination, kind::collects(code), amount)
}

#[tactic(auto, unfolding(paper::specs::Controls::with_additional))]
pub fn with_additional(tally: Tally) -> Tally
    requires { Below (10 ^ 18) tally }
    ensures { result ≡ with_additional tally }
{
    Tally {
        records: tally.records + 1,
        ..tally
    }
}

// No impl of `Add`: the bound on both would be a ghost of that, longer than these clauses.
#[tactic(auto, unfolding(paper::specs::Controls::plus))]
pub fn plus(a: Tally, b: Tally) -> Tally
    requires below { Below (10 ^ 18) a }
    requires below_2 { Below (10 ^ 18) b }
    ensures { result ≡ plus a b }
{
    Tally {
        records: a.records + b.records,
        destinations: a.destinations + b.destinations,
        debits: a.debits + b.debits,
        credits: a.credits + b.credits,
    }
}
