// The jobs: files are read, the desk is asked, its answer is printed, and bytes go out where it accepts.
ghost use Rattle.std.specs.Prelude.{◌≤◌, ◌<◌, length};
ghost use Rattle.desk.specs.Calls.{Reachable};
ghost use Rattle.handing.specs.Handed.{AllOf};
ghost use Rattle.counter.specs.InBuffer.{InBuffer};

use crate::world::World;
use crate::{member, say, share, world};
use desk::{Reply, Session};
use files::ending::Stopped;
use files::{args, taking};
use handing::{Unwritten, modes};
use intake::held::Size;
use intake::long::Took;
use intake::roster::Roll;
use intake::{held, long};
use looking::Form;
use paper::answer::Refusal;
use typed::call::{Job, Word};
use typed::words;

// The mode of a file to be written: that of OUT is the first, or that of FOLDER/402.txt is at 402.
fn mode(rt: &impl World, i: usize) -> Option<u32> {
    let mut word = io::buffer();
    modes::of(args::word(rt, Word::MODES, &mut word), i)
}

// The bytes under that path, in a file of mode i, and how many they are.
pub(crate) fn put(rt: &impl World, path: &[u8], i: usize, bytes: &[u8]) -> Result<usize, Unwritten>
    requires { length path.now ≤ 4096 }
    ensures { AllOf bytes.now result }
{
    let mut name = io::buffer();
    let name = args::word(rt, Word::PART, &mut name);
    handing::put(rt, path, name, mode(rt, i), bytes)
}

// Acceptance is said once the bytes are where they belong.
pub(crate) fn hand_over(
    rt: &impl World,
    word: usize,
    output: Result<usize, Refusal>,
    out: &[u8],
) -> Result<(), Stopped>
    requires { InBuffer output out.now }
{
    let n = output.map_err(|refusal| say::refusal(rt, refusal))?;
    let mut path = io::buffer();
    let path = taking::name(rt, word, &mut path)?;
    let bytes = put(rt, path, 0, &out[..n])?;
    say::output(rt, bytes)
}

fn read(rt: &impl World, session: &Session) -> Result<(), Stopped> {
    let mut input = held::input();
    let (_source, file) = world::file(rt, Word::FIRST, &mut input)?;
    say::answer(rt, session.read(file))
}

fn present_named(rt: &impl World, session: &mut Session, path: &[u8]) -> Result<(), Stopped>
    requires { Reachable session.old }
    ensures { Reachable session.new }
{
    let mut input = held::input();
    let (_source, n) = taking::file_named(rt, path, &mut input)?;
    let answer = session.present(&input[..n]);
    say::named(rt, answer, path)
}

// The file that a word names, presented.
fn present_one(rt: &impl World, session: &mut Session, word: usize) -> Result<(), Stopped>
    requires { Reachable session.old }
    ensures { Reachable session.new }
{
    let mut path = io::buffer();
    present_named(rt, session, taking::name(rt, word, &mut path)?)
}

// A file that cannot be read ends the day without a listing: one that lacks a file would look whole.
fn present(rt: &impl World, session: &mut Session) -> Result<(), Stopped>
    requires { Reachable session.old }
{
    let mut ended = Ok(());
    for word in Word::FIRST..world::words(rt) {
        let now = present_one(rt, session, word);
        if now == Err(Stopped::Undone) {
            return now;
        }
        ended = now.and(ended);
    }
    say::list(rt, session).and(ended)
}

#[tactic(auto, using(typed::proofs::Numbers::entity_below))]
pub(crate) fn entity(rt: &impl World) -> u64
    ensures { result < 5000 }
{
    let mut word = io::buffer();
    words::entity(args::word(rt, Word::FIRST, &mut word))
}

fn extract(rt: &impl World, session: &Session) -> Result<(), Stopped> {
    let mut input = held::input();
    let (_source, file) = world::file(rt, Word::SECOND, &mut input)?;
    let mut out = held::output();
    let output = session.extract(entity(rt), file, &mut out);
    hand_over(rt, Word::THIRD, output, &out)
}

fn strip(rt: &impl World, session: &Session) -> Result<(), Stopped> {
    let mut input = held::input();
    let (_source, file) = world::file(rt, Word::FIRST, &mut input)?;
    let mut out = held::output();
    let output = session.strip(file, &mut out);
    hand_over(rt, Word::SECOND, output, &out)
}

// All that stands under that name; the refusal of what is longer than its job can take is said.
pub(crate) fn whole<'a>(
    rt: &impl World,
    form: Form,
    path: &[u8],
    body: &[u8],
    input: &'a mut [u8; Size::LONG],
) -> Result<&'a [u8], Stopped> {
    match long::take(rt, form, path, body, input)? {
        Took::Whole(n, _) => Ok(&input[..n]),
        Took::Long(refusal, _, _) => Err(say::refusal(rt, refusal)),
    }
}

fn build(rt: &impl World, session: &Session) -> Result<(), Stopped> {
    // one byte more than a header body shows that there was more
    let mut header = [0u8; Session::RECORD + 1];
    let (_source, header) = world::file(rt, Word::FIRST, &mut header)?;
    let mut path = io::buffer();
    let path = taking::name(rt, Word::SECOND, &mut path)?;
    let mut input = held::long();
    let tray = whole(rt, Form::Tray, path, header, &mut input)?;
    let mut out = held::output();
    let output = session.build(header, tray, &mut out);
    hand_over(rt, Word::THIRD, output, &out)
}

// The job, where the session was opened. A `match` and no table: it names every job, and one of them changes the session.
pub(crate) fn run(rt: &impl World, job: Job, opened: Reply, roll: &Roll) -> Result<(), Stopped>
    requires { Reachable opened.session }
{
    if let Err(refusal) = opened.answer {
        return say::opening(rt, refusal, roll);
    }
    let mut session = opened.session;
    match job {
        Job::Read => read(rt, &session),
        Job::Present => present(rt, &mut session),
        Job::Extract => extract(rt, &session),
        Job::Build => build(rt, &session),
        Job::Strip => strip(rt, &session),
        Job::Share => share::share(rt, &session),
        Job::Receive => member::receive(rt, &session),
        Job::Reason => member::reason(rt, &session),
        Job::Reasons => member::reasons(rt, &session),
    }
}
