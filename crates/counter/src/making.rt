// A company's file made into a tray: no session is opened.
use crate::world::World;
use crate::{jobs, world};
use desk::Session;
use files::ending::Stopped;
use files::taking;
use intake::held;
use looking::Form;
use paper::rules::Currency;
use typed::call::Word;

// No one function with `jobs::build` over a closure: that what a closure counts is within the buffer takes a longer clause than the lines that the two share.
pub(crate) fn make(rt: &impl World, currency: Currency) -> Result<(), Stopped> {
    // one byte more than an LO body shows that there was more
    let mut lo = [0u8; Session::RECORD + 1];
    let (_source, lo) = world::file(rt, Word::LO, &mut lo)?;
    let mut path = io::buffer();
    let path = taking::name(rt, Word::COMPANY, &mut path)?;
    let mut input = held::long();
    let file = jobs::whole(rt, Form::Company(currency), path, lo, &mut input)?;
    let mut out = held::output();
    let output = company::tray(currency, lo, file, &mut out);
    jobs::hand_over(rt, Word::OUT, output, &out)
}
