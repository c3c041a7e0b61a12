// The counter: the desk's jobs from a shell. Here is reading, calling and writing; what is answered and printed is proved in the crates below.
#![tactic(auto)]

ghost use Rattle.std.specs.Prelude.{◌^◌, ◌<◌};

use desk::Session;
use files::ending::Stopped;
use files::{args, ending, taking};
use intake::roster;
use paper::rules::Currency;
use typed::call::{Asked, Job, Word};
use typed::{call, words};
use world::World;

mod jobs;
mod making;
mod member;
mod say;
mod share;
mod world;

// Standard error.
const STDERR: i32 = 2;

// What the words of this call ask for, if anything.
fn called(rt: &impl World) -> Option<Asked> {
    let mut job = io::buffer();
    let job = args::word(rt, Word::JOB, &mut job);
    let mut next = io::buffer();
    let next = args::word(rt, Word::COMPANY_CURRENCY, &mut next);
    let mut currency = io::buffer();
    let currency = args::word(rt, Word::CURRENCY, &mut currency);
    call::asked_for(job, next, currency, world::words(rt))
}

#[tactic(auto, using(typed::proofs::Numbers::date_below))]
fn date(rt: &impl World) -> u64
    ensures { result < 10 ^ 6 }
{
    let mut word = io::buffer();
    words::date(args::word(rt, Word::DATE, &mut word))
}

fn usage() {
    io::write_all(
        STDERR,
        b"usage: counter read DATE CURRENCY ROSTER FILE\n\
        \x20      counter present DATE CURRENCY ROSTER FILE..\n\
        \x20      counter extract DATE CURRENCY ROSTER ENTITY FILE OUT\n\
        \x20      counter build DATE CURRENCY ROSTER HEADER TRAY OUT\n\
        \x20      counter strip DATE CURRENCY ROSTER FILE OUT\n\
        \x20      counter share DATE CURRENCY ROSTER FILE FOLDER\n\
        \x20      counter receive DATE CURRENCY ROSTER ENTITY EXTRACT\n\
        \x20      counter reason DATE CURRENCY ROSTER ENTITY EXTRACT MOTIVES RECORD\n\
        \x20      counter reasons DATE CURRENCY ROSTER ENTITY EXTRACT MOTIVES\n\
        \x20      counter company CURRENCY LO COMPANY OUT\n\
        \x20      counter explain NUMBER\n\
        \x20      counter version\n\
        DATE is AAMMDD, CURRENCY pesos or dollars, ROSTER a file of entity numbers or the word all.\n",
    );
}

// A job in a session of a currency, which the roster opens.
fn serve_in(rt: &impl World, job: Job, currency: Currency) -> Result<(), Stopped> {
    let mut path = io::buffer();
    let path = taking::name(rt, Word::ROSTER, &mut path)?;
    let mut entities = [0u64; Session::ROSTER];
    let roll = roster::gather(rt, path, &mut entities)?;
    let opened = Session::open(date(rt), currency, &entities[..roll.count]);
    jobs::run(rt, job, opened, &roll)
}

// What is asked for, done.
fn serve(rt: &impl World) -> Result<(), Stopped> {
    match called(rt) {
        Some(Asked::To(job, currency)) => serve_in(rt, job, currency),
        Some(Asked::Company(currency)) => making::make(rt, currency),
        None => {
            usage();
            Err(Stopped::Undone)
        }
    }
}

fn main(rt: HostRuntime) {
    ending::tell(&rt, Word::LAUNCHER, serve(&rt));
}
