// A worked sheet: so much memory, calls with what each answers, and what they leave.
use calls::Call;
use cursor::flags::SerializeErrorFlags;
use link::ObjIdx;

// What a call answers.
#[derive(Clone, Copy)]
pub enum Reply {
    Nothing,
    Done(Result<(), SerializeErrorFlags>),
    Place(Result<usize, SerializeErrorFlags>),
    Number(Option<ObjIdx>),
    Flags(SerializeErrorFlags),
    // A snapshot with nothing open and no flag.
    Taken { head: usize, tail: usize },
}

#[derive(Clone, Copy)]
pub struct Line<'a>(pub Call<'a>, pub Reply);

pub struct Sheet<'a> {
    pub name: &'a str,
    pub size: usize,
    pub lines: &'a [Line<'a>],
    // The flags at the end, the length of the output, and its first bytes, sixteen at most.
    pub flags: SerializeErrorFlags,
    pub length: usize,
    pub first: &'a [u8],
}
