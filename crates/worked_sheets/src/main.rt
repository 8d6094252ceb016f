// Prints the worked sheets, whose outcome is proved of the model, as readable lines.
#![tactic(auto)]

mod sheet;
mod table;

use calls::Hex;
use sheet::{Line, Reply, Sheet};
use std::fmt;
use table::sheets;

impl fmt::Display for Reply {
    fn fmt<W: fmt::Write>(&self, f: &mut fmt::Formatter<W>) -> fmt::Result {
        match *self {
            Reply::Nothing => f.write_str("nothing"),
            Reply::Done(Ok(())) => f.write_str("ok"),
            Reply::Place(Ok(place)) => write!(f, "ok {place}"),
            Reply::Done(Err(flags)) | Reply::Place(Err(flags)) => write!(f, "err {flags}"),
            Reply::Number(Some(number)) => write!(f, "some {number}"),
            Reply::Number(None) => f.write_str("none"),
            Reply::Flags(flags) => write!(f, "flags {flags}"),
            Reply::Taken { head, tail } => write!(f, "head {head}, tail {tail}"),
        }
    }
}

impl fmt::Display for Sheet<'_> {
    fn fmt<W: fmt::Write>(&self, f: &mut fmt::Formatter<W>) -> fmt::Result {
        writeln!(f, "{}: memory {}", self.name, self.size)?;
        for Line(call, reply) in self.lines {
            writeln!(f, "    {call}: {reply}")?;
        }
        let first = Hex(self.first);
        write!(
            f,
            "  flags {}, output of {} bytes: {first}",
            self.flags, self.length
        )
    }
}

fn main(rt: HostRuntime) -> anyhow::Result<()> {
    for sheet in sheets() {
        println!(rt; "{sheet}")?;
    }
    Ok(())
}
