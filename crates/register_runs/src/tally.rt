// How often each answer came.
use crate::call::Answer;
use std::fmt;

#[derive(Clone, Copy, Default)]
pub(crate) struct Tally {
    entered: u64,
    declined: u64,
    struck: u64,
    found: u64,
    none: u64,
    capacity: u64,
}

impl Tally {
    pub(crate) fn count(&mut self, answer: Answer) {
        let kind = match answer {
            Answer::Entered(true) => &mut self.entered,
            Answer::Entered(false) => &mut self.declined,
            Answer::Struck => &mut self.struck,
            Answer::Least(Some(_)) => &mut self.found,
            Answer::Least(None) => &mut self.none,
            Answer::Capacity(_) => &mut self.capacity,
        };
        *kind = kind.saturating_add(1);
    }
}

impl fmt::Display for Tally {
    fn fmt<W: fmt::Write>(&self, f: &mut fmt::Formatter<W>) -> fmt::Result {
        write!(
            f,
            "{} entered, {} declined, {} struck, {} found, {} not found, {} asked for the capacity",
            self.entered, self.declined, self.struck, self.found, self.none, self.capacity
        )
    }
}
