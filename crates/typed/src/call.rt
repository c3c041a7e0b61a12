// What the words of a call ask for.
ghost use Rattle.std.specs.Prelude.{◌≡◌};
ghost use Rattle.typed.specs.Asking.{money_typed, asked_in, asked_to_make, asked_to_write, asked_of_extract, asked_in_session, asked_for};

use crate::words;
use paper::rules::Currency;

#[derive(Clone, Copy)]
pub enum Job {
    Read,
    Present,
    Extract,
    Build,
    Strip,
    Share,
    Receive,
    Reason,
    Reasons,
}

// A job to be done in a session of a currency; or a company's file to be made into a tray.
#[derive(Clone, Copy)]
pub enum Asked {
    To(Job, Currency),
    Company(Currency),
}

// Which word stands where. The program's own name is at 0. The launcher puts three before what was typed: where it listens, how a file is named while it is
// written, and the modes of the files that may be replaced.
#[derive(Clone, Copy)]
pub struct Word;

impl Word {
    pub const LAUNCHER: usize = 1;

    pub const PART: usize = 2;

    pub const MODES: usize = 3;

    pub const JOB: usize = 4;

    pub const DATE: usize = 5;

    pub const CURRENCY: usize = 6;

    pub const ROSTER: usize = 7;
    // FILE, or FILE.., or FILE OUT, or FILE FOLDER; or ENTITY FILE OUT, or HEADER TRAY OUT; or ENTITY EXTRACT, with MOTIVES, with MOTIVES RECORD
    pub const FIRST: usize = 8;

    pub const SECOND: usize = 9;

    pub const THIRD: usize = 10;

    pub const FOURTH: usize = 11;
    // Of `company`, which opens no session: CURRENCY LO COMPANY OUT.
    pub const COMPANY_CURRENCY: usize = 5;

    pub const LO: usize = 6;

    pub const COMPANY: usize = 7;

    pub const OUT: usize = 8;
}

// Tried as a `match` on b"pesos" and b"dollars": it leaves a goal for each byte of the words, and the deepest do not close; so also below.
#[tactic(auto, unfolding(crate::specs::Asking::money_typed))]
fn named(word: &[u8]) -> Option<Currency>
    ensures { result ≡ money_typed word.now }
{
    if words::is(word, b"pesos") {
        return Some(Currency::Pesos);
    }
    if words::is(word, b"dollars") {
        return Some(Currency::Dollars);
    }
    None
}

// The job, where so many words are its, in the currency that the word names.
#[tactic(auto, unfolding(crate::specs::Asking::asked_in))]
fn asked_in(currency: &[u8], job: Job, fits: bool) -> Option<Asked>
    ensures { result ≡ asked_in currency.now job fits }
{
    if !fits {
        return None;
    }
    Some(Asked::To(job, named(currency)?))
}

// A tray of a company's file, where so many words are its, in the currency that the word names.
#[tactic(auto, unfolding(crate::specs::Asking::asked_to_make))]
fn asked_to_make(currency: &[u8], fits: bool) -> Option<Asked>
    ensures { result ≡ asked_to_make currency.now fits }
{
    if !fits {
        return None;
    }
    Some(Asked::Company(named(currency)?))
}

// The jobs that write files.
#[tactic(auto, unfolding(crate::specs::Asking::asked_to_write))]
fn asked_to_write(job: &[u8], currency: &[u8], count: usize) -> Option<Asked>
    ensures { result ≡ asked_to_write job.now currency.now count }
{
    if words::is(job, b"extract") {
        return asked_in(currency, Job::Extract, count == Word::THIRD + 1);
    }
    if words::is(job, b"build") {
        return asked_in(currency, Job::Build, count == Word::THIRD + 1);
    }
    if words::is(job, b"strip") {
        return asked_in(currency, Job::Strip, count == Word::SECOND + 1);
    }
    if words::is(job, b"share") {
        return asked_in(currency, Job::Share, count == Word::SECOND + 1);
    }
    None
}

// The jobs of a member's desk, on an extract; or another.
#[tactic(auto, unfolding(crate::specs::Asking::asked_of_extract))]
fn asked_of_extract(job: &[u8], currency: &[u8], count: usize) -> Option<Asked>
    ensures { result ≡ asked_of_extract job.now currency.now count }
{
    if words::is(job, b"receive") {
        return asked_in(currency, Job::Receive, count == Word::SECOND + 1);
    }
    if words::is(job, b"reason") {
        return asked_in(currency, Job::Reason, count == Word::FOURTH + 1);
    }
    if words::is(job, b"reasons") {
        return asked_in(currency, Job::Reasons, count == Word::THIRD + 1);
    }
    asked_to_write(job, currency, count)
}

// What the words for the job and the currency ask for, in a session, in a call of so many words.
#[tactic(auto, unfolding(crate::specs::Asking::asked_in_session))]
fn asked_in_session(job: &[u8], currency: &[u8], count: usize) -> Option<Asked>
    ensures { result ≡ asked_in_session job.now currency.now count }
{
    if words::is(job, b"read") {
        return asked_in(currency, Job::Read, count == Word::FIRST + 1);
    }
    if words::is(job, b"present") {
        return asked_in(currency, Job::Present, count > Word::FIRST);
    }
    asked_of_extract(job, currency, count)
}

// The same of any job; the word behind its own is DATE, or, where no session is opened, CURRENCY.
#[tactic(auto, unfolding(crate::specs::Asking::asked_for))]
pub fn asked_for(job: &[u8], next: &[u8], currency: &[u8], count: usize) -> Option<Asked>
    ensures { result ≡ asked_for job.now next.now currency.now count }
{
    if words::is(job, b"company") {
        return asked_to_make(next, count == Word::OUT + 1);
    }
    asked_in_session(job, currency, count)
}
