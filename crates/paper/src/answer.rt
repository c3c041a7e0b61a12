// Numbers on the counter.
ghost use Rattle.std.specs.Prelude.{◌≡◌};
ghost use Rattle.paper.specs.Answers.{number_of};

// A reason to refuse, with its number, in the order of the paper's table.
#[derive(Clone, Copy, PartialEq, Eq)]
pub enum Fault {
    // length of the file
    Length = 201,
    // character, order, fixed field, entity or control
    Format = 17,
    // amount
    Amount = 19,
    // additional record missing, surplus or wrong
    Additional = 25,
    // counter out of sequence
    Counter = 27,
    // date
    Date = 75,
    // individual record, field 4, the reserved zero
    Reserved = 77,
    // field 5, the account
    Account = 78,
    // field 7, the reference of the debit
    Reference = 79,
    // field 9, the information on the transaction
    Information = 87,
    // entity of the other currency, or a company's detail not of the currency
    Currency = 203,
    // entity not on the roster
    Roster = 204,
    // output buffer too short
    Room = 206,
    // tray, header body or LO body malformed, or motive list of another length
    Tray = 207,
    // entity number asked for
    Entity = 208,
    // identifier already accepted from this origin
    Identifier = 209,
    // the record asked for is not a rejection's additional record
    Reason = 214,
}

// A refusal, with the place of the record it stands at. A job answers nothing, or how many bytes it wrote; or this.
#[derive(Clone, Copy, PartialEq, Eq)]
pub struct Refusal {
    pub fault: Fault,
    pub place: usize,
}

impl Fault {
    // The paper's number.
    pub fn number(self) -> u64
        ensures { result ≡ number_of self }
    {
        self as u64
    }

    pub fn at(self, place: usize) -> Refusal
        ensures { result ≡ record { fault = self; place = place } }
    {
        Refusal { fault: self, place }
    }
}
