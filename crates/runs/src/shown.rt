// Answers as readable lines. The replies of the worked sheets, which stand in a static and so hold no vector, are a type
// of their own and are printed there.
use crate::answer::{Answer, SeenObject};
use calls::Hex;
use std::fmt;

fn show_object<W: fmt::Write>(object: &SeenObject, f: &mut fmt::Formatter<W>) -> fmt::Result {
    let SeenObject {
        head,
        tail,
        num_real_links,
        num_virtual_links,
        bytes,
    } = object;
    let bytes = Hex(bytes);
    write!(
        f,
        "some head {head}, tail {tail}, {num_real_links} real links, {num_virtual_links} virtual links, {bytes}"
    )
}

impl fmt::Display for Answer {
    fn fmt<W: fmt::Write>(&self, f: &mut fmt::Formatter<W>) -> fmt::Result {
        match self {
            Answer::Nothing => f.write_str("nothing"),
            Answer::Done(Ok(())) => f.write_str("ok"),
            Answer::Place(Ok(place)) => write!(f, "ok {place}"),
            Answer::Done(Err(flags)) | Answer::Place(Err(flags)) => write!(f, "err {flags}"),
            Answer::Number(Some(number)) => write!(f, "some {number}"),
            Answer::Flags(flags) => write!(f, "flags {flags}"),
            Answer::Whether(yes) => write!(f, "{yes}"),
            Answer::Amount(amount) => write!(f, "{amount}"),
            Answer::Value(Some(value)) => write!(f, "some {value}"),
            Answer::Bytes(Some(bytes)) => write!(f, "some {}", Hex(bytes)),
            Answer::Object(Some(object)) => show_object(object, f),
            Answer::Linked(Some(link)) => {
                write!(f, "some link at {} to {}", link.position, link.objidx)
            }
            Answer::Number(None)
            | Answer::Value(None)
            | Answer::Bytes(None)
            | Answer::Object(None)
            | Answer::Linked(None) => f.write_str("none"),
            Answer::Taken(taken) => write!(f, "head {}, tail {}", taken.head, taken.tail),
        }
    }
}
