// A member's desk: what was handed out to it is received, and why debits came back is shown.
ghost use Rattle.std.specs.Prelude.{◌≡◌, ◌/◌, ◌≤◌, length};
ghost use Rattle.reasons.specs.Shown.{showing_of};
ghost use Rattle.export.specs.Member.{heard_text, without_text, shown_of, text_found, texts_from, receive_of, show_of, reasons_of};

use crate::pairs::hand_pair;
use crate::{Spoken, open, opened, speak, speak_of};
use desk::Session;
use paper::answer::Refusal;
use reasons::Shown;

// Where the text of a reason stands. Accepted: 0, the bytes of the text, its source, and the byte of that where it begins. Refused: the
// refusal number and its place, then 0 and 0. No enum for the sources: the C interface.
#[repr(C)]
#[derive(Clone, Copy)]
pub struct SpokenText {
    pub number: u64,
    pub place: u64,
    pub source: u64,
    pub at: u64,
}

impl SpokenText {
    // The sources of a text: none, the file, the motive list.
    pub const NOWHERE: u64 = 0;

    pub const IN_FILE: u64 = 1;

    pub const IN_MOTIVES: u64 = 2;
}

// An answer that shows no text.
#[tactic(auto, unfolding(crate::specs::Member::start_of))]
fn no_text(spoken: Spoken) -> SpokenText
    ensures { without_text spoken ≡ heard_text result }
{
    SpokenText {
        number: spoken.number,
        place: spoken.place,
        source: SpokenText::NOWHERE,
        at: 0,
    }
}

#[tactic(auto, unfolding(crate::specs::Member::shown_of, crate::specs::Member::start_of, crate::specs::Spoken::spoken_of))]
fn speak_text(shown: Result<Shown, Refusal>) -> SpokenText
    ensures { shown_of (showing_of shown) ≡ heard_text result }
{
    let (source, at) = match shown {
        Ok(Shown::File(at)) => (SpokenText::IN_FILE, at),
        Ok(Shown::Motives(at)) => (SpokenText::IN_MOTIVES, at),
        Err(refusal) => return no_text(speak(Err(refusal))),
    };
    SpokenText {
        number: 0,
        place: Shown::TEXT as u64,
        source,
        at: at as u64,
    }
}

// Of every record in turn, where the text of its reason stands.
fn hand_texts(file: &[u8], texts: &mut [u64])
    requires { length file.now ≤ 940000 }
    ensures { texts.new ≡ texts_from (text_found file.now) (length file.now / 94) 0 texts.old }
{
    let records = file.len() / Session::RECORD;
    for i in 0..records {
        let text = speak_text(reasons::find(file, i));
        hand_pair(i, text.source, text.at, texts);
    }
}

// A file received by the desk of an entity, in a session opened with this date, currency and list of entities: 0 and the number of records,
// or the refusal.
#[tactic(auto, using(crate::proofs::Jobs::jobs), unfolding(crate::specs::Member::receive_of))]
pub fn shaydhoqel_receive(
    date: u64,
    dollars: bool,
    entities: &[u64],
    entity: u64,
    file: &[u8],
) -> Spoken
    ensures { receive_of date dollars entities.now entity file.now ≡ record { spoken = result; lent = tt } }
{
    let reply = open(date, dollars, entities);
    match opened(&reply) {
        Ok(session) => speak_of(file.len() / Session::RECORD, session.receive(entity, file)),
        Err(spoken) => spoken,
    }
}

// Where the text of the reason in one record of such a file stands.
#[tactic(auto, using(crate::proofs::Jobs::jobs), unfolding(crate::specs::Member::show_of))]
pub fn shaydhoqel_show(
    date: u64,
    dollars: bool,
    entities: &[u64],
    entity: u64,
    file: &[u8],
    motives: &[u8],
    record: u64,
) -> SpokenText
    ensures { show_of date dollars entities.now entity file.now motives.now «record» ≡ heard_text result }
{
    let reply = open(date, dollars, entities);
    match opened(&reply) {
        Ok(session) => speak_text(session.show(entity, file, motives, record as usize)),
        Err(spoken) => no_text(spoken),
    }
}

// The same of all its records, asked once: two numbers for each in `texts`, source and byte, and 0 and the number of records.
#[tactic(auto, using(crate::proofs::Jobs::jobs), unfolding(crate::specs::Member::reasons_of))]
pub fn shaydhoqel_reasons(
    date: u64,
    dollars: bool,
    entities: &[u64],
    entity: u64,
    file: &[u8],
    motives: &[u8],
    texts: &mut [u64],
) -> Spoken
    ensures { reasons_of date dollars entities.now entity file.now motives.now texts.old
        ≡ record { spoken = result; lent = texts.new } }
{
    let reply = open(date, dollars, entities);
    let session = match opened(&reply) {
        Ok(session) => session,
        Err(spoken) => return spoken,
    };
    if let Err(refusal) = session.ask(entity, file, motives) {
        return speak(Err(refusal));
    }
    hand_texts(file, texts);
    speak(Ok(file.len() / Session::RECORD))
}
