// What a line says of a record and of an answer: numbers with single spaces.
use std::fmt;
use tasks::Task;

// A record, by its six fields.
#[derive(Clone, Copy)]
pub(crate) struct Fields(pub Task);

impl fmt::Display for Fields {
    fn fmt<W: fmt::Write>(&self, f: &mut fmt::Formatter<W>) -> fmt::Result {
        let Task {
            phase,
            cell,
            value,
            held,
            own,
            cursor,
        } = self.0;
        write!(
            f,
            "{phase} {} {value} {} {} {}",
            cell.0, held.0, own.0, cursor.0
        )
    }
}

// The answer to a holders question: its number and its value.
#[derive(Clone, Copy)]
pub(crate) struct Holders(pub Option<usize>);

impl fmt::Display for Holders {
    fn fmt<W: fmt::Write>(&self, f: &mut fmt::Formatter<W>) -> fmt::Result {
        let number = tasks::holders_number(self.0);
        let value = tasks::holders_value(self.0);
        write!(f, "{number} {value}")
    }
}
