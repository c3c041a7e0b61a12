// What a session holds for each entity: its signed position in cents, and the individual records that it sent and received.
#[derive(Clone, Copy)]
pub struct Cell {
    pub position: i64,
    pub sent: u64,
    pub received: u64,
}

impl Cell {
    // What a new session holds.
    pub const ZERO: Cell = Cell {
        position: 0,
        sent: 0,
        received: 0,
    };
}
