// What bytes at the positions of a record are: characters, digits and the number they spell, blanks, a text.
#![tactic(auto)]

pub mod byte;
pub mod number;
pub mod text;
pub mod word;
