// A roster as text: entity numbers separated by blanks or line ends. A text of any length is read piece by piece.
ghost use Rattle.std.specs.Prelude.{◌≡◌, ◌≤◌, length};
ghost use Rattle.paper.specs.Buffers.{over};
ghost use Rattle.typed.specs.Rosters.{separator, begun, noted, marks_after, progress_after, closed, with_if, read_on, entities_in};
ghost use Rattle.typed.specs.Rosters.{roster_of, next_place, begun_if, bytes_with, kept_with, progress_with, shown_in, wrong_in};
ghost use Rattle.typed.specs.Texts.{roster_in, text_begun, text_on};

use crate::words;
use desk::Session;
use watch::Watch;

// Where reading has come to among the words.
#[derive(Clone, Copy)]
pub struct Progress {
    // whether a word is being read
    word: bool,
    // its number so far
    number: u64,
    // its place among the words, from 1, and how many of its first bytes are kept: both stay as they are from the first wrong word on
    place: u64,
    kept: usize,
}

// What is known after part of the text.
#[derive(Clone, Copy)]
pub struct Roster {
    // the numbers listed; at 0, whether one was listed that is no entity's
    listed: [bool; Session::ROSTER],
    // the first bytes of the word being read; or of the first wrong word, once there is one
    bytes: [u8; Roster::SHOWN],
    progress: Progress,
}

// A word that is no entity's number: its place, and its first bytes, of which so many are kept in front.
#[derive(Clone, Copy)]
pub struct Wrong {
    pub place: u64,
    kept: usize,
    bytes: [u8; Roster::SHOWN],
}

// Blanks and line ends; tabs count as blanks.
fn separator(b: u8) -> bool
    ensures { result ≡ separator b }
{
    matches!(b, b'\t' | b'\n' | b'\r' | b' ')
}

// One mark is set where it stands: a copy of all of them for each word is what takes time.
#[tactic(auto, unfolding(crate::specs::Rosters::noted))]
fn note(listed: &mut [bool; Session::ROSTER], number: u64)
    ensures { listed.new ≡ noted listed.old number }
{
    let e = number as usize;
    if e < Session::ROSTER {
        listed[e] = true;
    } else {
        listed[0] = true;
    }
}

// The next word's place. No text has so many words that the count stops: no source hands over so many bytes.
#[tactic(auto, unfolding(crate::specs::Rosters::next_place))]
fn next_place(place: u64) -> u64
    ensures { result ≡ next_place place }
{
    if place < Roster::MOST {
        return place + 1;
    }
    place
}

impl Wrong {
    // Its first bytes.
    #[tactic(auto, unfolding(crate::specs::Rosters::shown_in))]
    pub fn shown(&self) -> &[u8]
        ensures told { result.now ≡ shown_in self.now }
        ensures bound { length result.now ≤ 64 }
    {
        &self.bytes[..self.kept.min(Roster::SHOWN)]
    }
}

impl Progress {
    // A word ends, where there is one.
    #[tactic(auto, unfolding(crate::specs::Rosters::marks_after, crate::specs::Rosters::progress_after))]
    fn ended(self, listed: &mut [bool; Session::ROSTER]) -> Progress
        ensures { (listed.new ≡ marks_after self listed.old) × (result ≡ progress_after self) }
    {
        if self.word {
            note(listed, self.number);
        }
        Progress {
            word: false,
            number: 0,
            ..self
        }
    }

    // A word begins, where there is none.
    #[tactic(auto, unfolding(crate::specs::Rosters::begun_if))]
    fn begun(self) -> Progress
        ensures { result ≡ begun_if self.word self }
    {
        if self.word {
            return self;
        }
        Progress {
            word: true,
            number: 0,
            place: next_place(self.place),
            kept: 0,
        }
    }

    // The byte is kept if it is among the first of its word. Hands back how many are kept then.
    #[tactic(auto, unfolding(crate::specs::Rosters::bytes_with, crate::specs::Rosters::kept_with))]
    fn keep(self, b: u8, bytes: &mut [u8; Roster::SHOWN]) -> usize
        ensures { (bytes.new ≡ bytes_with self b bytes.old) × (result ≡ kept_with self) }
    {
        let kept = self.kept;
        if kept < Roster::SHOWN {
            bytes[kept] = b;
            return kept + 1;
        }
        kept
    }

    // The word goes on with a byte; so many of its bytes are kept then.
    #[tactic(auto, unfolding(crate::specs::Rosters::progress_with))]
    fn grown(self, b: u8, kept: usize) -> Progress
        ensures { result ≡ progress_with self b kept }
    {
        Progress {
            word: true,
            number: words::grown(Session::LAST, self.number, b),
            kept,
            ..self
        }
    }

    // The parts of a roster are lent one by one: a `&mut Roster` in their place takes a third more time, since progress then goes by memory.
    #[tactic(auto, unfolding(crate::specs::Rosters::with_if, crate::specs::Rosters::grown_if, crate::specs::Rosters::closed))]
    fn with(
        self,
        b: u8,
        listed: &mut [bool; Session::ROSTER],
        bytes: &mut [u8; Roster::SHOWN],
    ) -> Progress
        ensures { roster_of listed.new bytes.new result
            ≡ with_if (separator b) (roster_of listed.old bytes.old self) b }
    {
        if separator(b) {
            return self.ended(listed);
        }
        if listed[0] {
            return self.grown(b, self.kept);
        }
        let word = self.begun();
        let kept = word.keep(b, bytes);
        word.grown(b, kept)
    }
}

impl Roster {
    // Bytes of a word that are told, at most.
    pub const SHOWN: usize = 64;
    // Places are counted up to here.
    const MOST: u64 = 1 << 63;

    #[tactic(auto, unfolding(crate::specs::Rosters::begun))]
    fn begun() -> Roster
        ensures { result ≡ begun }
    {
        let progress = Progress {
            word: false,
            number: 0,
            place: 0,
            kept: 0,
        };
        Roster {
            listed: [false; Session::ROSTER],
            bytes: [0; Roster::SHOWN],
            progress,
        }
    }

    // A word ends with the text too.
    #[tactic(auto, unfolding(crate::specs::Rosters::closed))]
    pub fn closed(self) -> Roster
        ensures { result ≡ closed self }
    {
        let mut listed = self.listed;
        let progress = self.progress.ended(&mut listed);
        Roster {
            listed,
            progress,
            ..self
        }
    }

    // The next piece of the text.
    fn read(self, piece: &[u8]) -> Roster
        ensures { result ≡ read_on self piece.now }
    {
        let mut listed = self.listed;
        let mut bytes = self.bytes;
        let mut progress = self.progress;
        for b in piece {
            progress = progress.with(*b, &mut listed, &mut bytes);
        }
        Roster {
            listed,
            bytes,
            progress,
        }
    }

    // The first word that is no entity's number.
    #[tactic(auto, unfolding(crate::specs::Rosters::wrong_in))]
    pub fn wrong(self) -> Option<Wrong>
        ensures { result ≡ wrong_in self }
    {
        if !self.listed[0] {
            return None;
        }
        Some(Wrong {
            place: self.progress.place,
            kept: self.progress.kept,
            bytes: self.bytes,
        })
    }

    // The numbers listed, ascending, and how many. They go into what the caller lends, so a length goes with it.
    pub fn entities(self, out: &mut [u64; Session::ROSTER]) -> usize
        ensures { (result ≡ length (entities_in self)) × (out.new ≡ over (entities_in self) out.old) }
    {
        // as a slice, since its length is then known
        let places = &mut out[..];
        let mut count = 0;
        for (e, listed) in self.listed.iter().enumerate() {
            if *listed {
                places[count] = e as u64;
                count += 1;
            }
        }
        count
    }
}

// A text that lists a roster, as far as it was read. Only this room can make or change one, so that all of it was read that was watched.
#[derive(Clone, Copy)]
pub struct Text {
    roster: Roster,
    watch: Watch,
}

impl Text {
    // Watched at the same place as another, from its first byte.
    #[tactic(auto, unfolding(crate::specs::Texts::text_begun))]
    pub fn begun(watch: Watch) -> Text
        ensures { result ≡ text_begun watch }
    {
        Text {
            roster: Roster::begun(),
            watch: watch.anew(),
        }
    }

    // The next piece.
    #[tactic(auto, unfolding(crate::specs::Texts::text_on))]
    pub fn read(self, piece: &[u8]) -> Text
        ensures { result ≡ text_on self piece.now }
    {
        Text {
            roster: self.roster.read(piece),
            watch: self.watch.on(piece),
        }
    }

    pub fn roster(self) -> Roster
        ensures { result ≡ roster_in self }
    {
        self.roster
    }
}
