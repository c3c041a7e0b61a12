// What no buffer holds, looked at in pieces and watched. Which knowledge is sought goes by its form.
#![tactic(auto)]

ghost use Rattle.looking.specs.Looks.{SoughtBegun, SoughtOn, TellsOf, sought_in, LookBegun, LookOn};

use paper::answer::Refusal;
use paper::rules::Currency;
use watch::Watch;

// What is looked at: a tray; or a company's file, in a currency.
#[derive(Clone, Copy)]
pub enum Form {
    Tray,
    Company(Currency),
}

// What is known of it so far.
#[derive(Clone, Copy)]
pub enum Sought {
    Tray(tray::pieces::Pieces),
    Company(company::pieces::Pieces),
}

impl Sought {
    fn begun(form: Form) -> Sought
        ensures { SoughtBegun form result }
    {
        match form {
            Form::Tray => Sought::Tray(tray::pieces::Pieces::begun()),
            Form::Company(currency) => Sought::Company(company::pieces::Pieces::begun(currency)),
        }
    }

    fn read(self, body: &[u8], piece: &[u8]) -> Sought
        ensures { SoughtOn self body.now piece.now result }
    {
        match self {
            Sought::Tray(known) => Sought::Tray(known.read(piece)),
            Sought::Company(known) => Sought::Company(known.read(body, piece)),
        }
    }

    fn answer(self, body: &[u8]) -> Option<Refusal>
        ensures { TellsOf self body.now result }
    {
        match self {
            Sought::Tray(known) => known.answer(body),
            Sought::Company(known) => known.answer(body),
        }
    }
}

// Bytes, as far as they were looked at. Only this room can make or change one, so that all of it was looked at that was watched.
#[derive(Clone, Copy)]
pub struct Look {
    sought: Sought,
    watch: Watch,
}

impl Look {
    // Watched at the same place as another, from its first byte.
    pub fn begun(form: Form, watch: Watch) -> Look
        ensures { LookBegun form watch result }
    {
        Look {
            sought: Sought::begun(form),
            watch: watch.anew(),
        }
    }

    // The next piece. The body is what the job is handed besides: with a tray a header body, with a company's file an LO body.
    pub fn read(self, body: &[u8], piece: &[u8]) -> Look
        ensures { LookOn self body.now piece.now result }
    {
        Look {
            sought: self.sought.read(body, piece),
            watch: self.watch.on(piece),
        }
    }

    // What can be told of all of it: a refusal, or nothing where it has no end.
    pub fn answer(self, body: &[u8]) -> Option<Refusal>
        ensures { TellsOf (sought_in self) body.now result }
    {
        self.sought.answer(body)
    }
}
