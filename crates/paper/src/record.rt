// What a record is, and what stood before it.

// The type that a record begins with.
#[derive(Clone, Copy)]
pub enum Kind {
    // 1
    FileHeader,
    // 5
    BatchHeader,
    // 6
    Individual,
    // 7
    Additional,
    // 8
    BatchControl,
    // 9
    FileControl,
    // none of them; no Option, since the sources order every record by its kind, and a match reads plainer with one level
    Other,
}

// The transaction code of an individual record, by its name in the sources.
#[derive(Clone, Copy)]
pub enum Code {
    // 37: an order to debit; with "01" in 77-78 a receiver's reversal
    Order,
    // 36: the rejection of either
    Rejection,
    // 32: an originator's reversal
    Reversal,
    // 31: the rejection of one
    ReversalRejection,
    // none of them; no Option, for the same reason
    Unknown,
}

// What stands before a record.
#[derive(Clone, Copy)]
pub enum Before {
    // nothing: it is the first
    Nothing,
    // a 1 or an 8
    Between,
    // a 5
    Opened,
    // a 6 whose position 79 is 1
    Flagged,
    // a 6 with 0, or a 7
    Inside,
    // a 9
    Ended,
}

// What the controls count.
#[derive(Clone, Copy)]
pub struct Tally {
    // types 6 and 7
    pub records: u64,
    // sum of the individual records' fields 4-11
    pub destinations: u64,
    // amounts of codes 37 and 36
    pub debits: u64,
    // amounts of 32 and 31
    pub credits: u64,
}

impl Tally {
    // Before the first record.
    pub const NONE: Tally = Tally {
        records: 0,
        destinations: 0,
        debits: 0,
        credits: 0,
    };
}
