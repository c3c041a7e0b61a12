// What a session is opened with.
#[derive(Clone, Copy)]
pub enum Currency {
    Pesos,
    Dollars,
}

impl Currency {
    // Dollars add this to an entity's number in its field.
    pub const DOLLARS_ADD: u64 = 500;
    // The highest entity number.
    pub const LAST: u64 = Currency::DOLLARS_ADD - 1;
    // The numbers of dollars in a field.
    pub const DOLLARS_FIRST: u64 = Currency::DOLLARS_ADD + 1;

    pub const DOLLARS_LAST: u64 = Currency::DOLLARS_ADD + Currency::LAST;
}

// The date AAMMDD as the number its digits spell, the currency, and for each entity number whether it is on the roster.
#[derive(Clone, Copy)]
pub struct Rules {
    pub date: u64,
    pub currency: Currency,
    pub roster: [bool; Rules::ROSTER],
}

impl Rules {
    // Entity numbers are below what dollars add to them: 1 to 499, and 0, which nobody has.
    pub const ROSTER: usize = Currency::DOLLARS_ADD as usize;
}

// Who reads a file: the house, or a member's desk, with its entity, what was handed out to it.
#[derive(Clone, Copy)]
pub enum Reader {
    House,
    Desk(u64),
}

// What a reading goes by: the session's date, currency and roster, which is long and is lent, and who reads.
#[derive(Clone, Copy)]
pub struct Terms<'a> {
    pub date: u64,
    pub currency: Currency,
    pub roster: &'a [bool; Rules::ROSTER],
    pub reader: Reader,
}
