// The worked sheets: calls with what each must answer, then the flags and the output that they must leave.
ghost use Rattle.std.specs.Prelude.{◌≡◌, map};
ghost use Rattle.model.specs.Sheets.{sheets as proved_sheets};
ghost use Rattle.worked_sheets.specs.Table.{sheet_of};

use crate::sheet::{Line, Reply, Sheet};
use calls::Call;
use cursor::flags::SerializeErrorFlags;
use link::{ObjIdx, OffsetWhence};

const NONE: SerializeErrorFlags = SerializeErrorFlags::SERIALIZE_ERROR_NONE;

const OTHER: SerializeErrorFlags = SerializeErrorFlags::SERIALIZE_ERROR_OTHER;

const OFFSET_OVERFLOW: SerializeErrorFlags = SerializeErrorFlags::SERIALIZE_ERROR_OFFSET_OVERFLOW;

const OUT_OF_ROOM: SerializeErrorFlags = SerializeErrorFlags::SERIALIZE_ERROR_OUT_OF_ROOM;

const INT_OVERFLOW: SerializeErrorFlags = SerializeErrorFlags::SERIALIZE_ERROR_INT_OVERFLOW;

const ARRAY_OVERFLOW: SerializeErrorFlags = SerializeErrorFlags::SERIALIZE_ERROR_ARRAY_OVERFLOW;

const TWO_OVERFLOWS: SerializeErrorFlags = SerializeErrorFlags(INT_OVERFLOW.0 | ARRAY_OVERFLOW.0);

// A link from a range to the object 0: without bias and unsigned where it does not say otherwise. It is a macro,
// since the value of a static calls no function.
macro_rules! link_from {
    ($from:literal..$to:literal, $whence:ident, $bias:literal, $is_signed:literal) => {
        Call::AddLink {
            from: $from,
            to: $to,
            number: ObjIdx(0),
            whence: OffsetWhence::$whence,
            bias: $bias,
            is_signed: $is_signed,
        }
    };
    ($from:literal..$to:literal, $whence:ident) => {
        link_from!($from..$to, $whence, 0, false)
    };
    ($from:literal..$to:literal, $whence:ident, bias $bias:literal) => {
        link_from!($from..$to, $whence, $bias, false)
    };
    ($from:literal..$to:literal, $whence:ident, signed) => {
        link_from!($from..$to, $whence, 0, true)
    };
}

const DONE: Reply = Reply::Done(Ok(()));

const AT_START: Reply = Reply::Place(Ok(0));

const FIRST: Reply = Reply::Number(Some(ObjIdx(0)));

const START: Line<'static> = Line(Call::StartSerialize, DONE);

const PUSH: Line<'static> = Line(Call::Push, DONE);

const END: Line<'static> = Line(Call::EndSerialize, Reply::Nothing);

const ROOT: Line<'static> = Line(Call::EmbedBytes(&[0, 0, 0, 0, 7]), AT_START);

const CHILD: Line<'static> = Line(Call::EmbedBytes(&[0x0a, 0x0b]), Reply::Place(Ok(5)));

const SHARED: Line<'static> = Line(Call::PopPack(true), FIRST);

const KEPT: Line<'static> = Line(Call::PopPack(false), FIRST);

const EMPTY: Line<'static> = Line(Call::PopPack(true), Reply::Number(None));

const ONE: Line<'static> = Line(Call::EmbedBytes(&[1]), AT_START);

const TWO: Line<'static> = Line(Call::EmbedBytes(&[1, 2]), AT_START);

const FOUR: Line<'static> = Line(Call::EmbedBytes(&[1, 2, 3, 4]), AT_START);

const NINES: Line<'static> = Line(Call::EmbedBytes(&[9, 9]), AT_START);

static SHEETS: [Sheet<'static>; 21] = [
    Sheet {
        name: "two equal children are stored once",
        size: 16,
        lines: &[
            START,
            ROOT,
            PUSH,
            CHILD,
            SHARED,
            Line(link_from!(0..2, Head), DONE),
            PUSH,
            CHILD,
            SHARED,
            Line(link_from!(2..4, Tail), DONE),
            END,
        ],
        flags: NONE,
        length: 7,
        first: &[0x00, 0x05, 0x00, 0x00, 0x07, 0x0a, 0x0b],
    },
    Sheet {
        name: "a bias of just the distance",
        size: 16,
        lines: &[
            START,
            ROOT,
            PUSH,
            CHILD,
            SHARED,
            Line(link_from!(0..2, Head, bias 5), DONE),
            PUSH,
            CHILD,
            SHARED,
            Line(link_from!(2..4, Tail), DONE),
            END,
        ],
        flags: NONE,
        length: 7,
        first: &[0x00, 0x00, 0x00, 0x00, 0x07, 0x0a, 0x0b],
    },
    Sheet {
        name: "a bias above the distance",
        size: 16,
        lines: &[
            START,
            ROOT,
            PUSH,
            CHILD,
            SHARED,
            Line(link_from!(0..2, Head, bias 6), DONE),
            PUSH,
            CHILD,
            SHARED,
            Line(link_from!(2..4, Tail), DONE),
            END,
        ],
        flags: OTHER,
        length: 0,
        first: &[],
    },
    Sheet {
        name: "memory of 4 takes 4 bytes",
        size: 4,
        lines: &[FOUR],
        flags: NONE,
        length: 4,
        first: &[1, 2, 3, 4],
    },
    Sheet {
        name: "memory of 4 has no room for a fifth",
        size: 4,
        lines: &[
            FOUR,
            Line(Call::EmbedBytes(&[5]), Reply::Place(Err(OUT_OF_ROOM))),
        ],
        flags: OUT_OF_ROOM,
        length: 0,
        first: &[],
    },
    Sheet {
        name: "link ranges of length 0, one of them reversed",
        size: 16,
        lines: &[
            START,
            Line(link_from!(3..3, Head), DONE),
            Line(link_from!(9..2, Head), DONE),
        ],
        flags: NONE,
        length: 0,
        first: &[],
    },
    Sheet {
        name: "a link range of length 1",
        size: 16,
        lines: &[START, Line(link_from!(3..4, Head), Reply::Done(Err(OTHER)))],
        flags: OTHER,
        length: 0,
        first: &[],
    },
    Sheet {
        name: "a link range of length 5",
        size: 16,
        lines: &[START, Line(link_from!(0..5, Head), Reply::Done(Err(OTHER)))],
        flags: OTHER,
        length: 0,
        first: &[],
    },
    Sheet {
        name: "65535 fits an unsigned field of two bytes",
        size: 65536,
        lines: &[
            START,
            PUSH,
            ONE,
            KEPT,
            Line(Call::Pad(65535), AT_START),
            Line(link_from!(0..2, Head), DONE),
            END,
        ],
        flags: NONE,
        length: 65536,
        first: &[0xff, 0xff, 0, 0, 0, 0, 0, 0, 0, 0, 0, 0, 0, 0, 0, 0],
    },
    Sheet {
        name: "65536 does not",
        size: 65537,
        lines: &[
            START,
            PUSH,
            ONE,
            KEPT,
            Line(Call::Pad(65536), AT_START),
            Line(link_from!(0..2, Head), DONE),
            END,
        ],
        flags: OFFSET_OVERFLOW,
        length: 0,
        first: &[],
    },
    Sheet {
        name: "65536 less a bias of 1 does",
        size: 65537,
        lines: &[
            START,
            PUSH,
            ONE,
            KEPT,
            Line(Call::Pad(65536), AT_START),
            Line(link_from!(0..2, Head, bias 1), DONE),
            END,
        ],
        flags: NONE,
        length: 65537,
        first: &[0xff, 0xff, 0, 0, 0, 0, 0, 0, 0, 0, 0, 0, 0, 0, 0, 0],
    },
    Sheet {
        name: "32767 fits a signed field of two bytes",
        size: 32768,
        lines: &[
            START,
            PUSH,
            ONE,
            KEPT,
            Line(Call::Pad(32767), AT_START),
            Line(link_from!(0..2, Head, signed), DONE),
            END,
        ],
        flags: NONE,
        length: 32768,
        first: &[0x7f, 0xff, 0, 0, 0, 0, 0, 0, 0, 0, 0, 0, 0, 0, 0, 0],
    },
    Sheet {
        name: "32768 does not",
        size: 32769,
        lines: &[
            START,
            PUSH,
            ONE,
            KEPT,
            Line(Call::Pad(32768), AT_START),
            Line(link_from!(0..2, Head, signed), DONE),
            END,
        ],
        flags: OFFSET_OVERFLOW,
        length: 0,
        first: &[],
    },
    Sheet {
        name: "an empty object",
        size: 8,
        lines: &[PUSH, EMPTY],
        flags: NONE,
        length: 0,
        first: &[],
    },
    Sheet {
        name: "an empty object with a link",
        size: 8,
        lines: &[PUSH, Line(link_from!(0..2, Head), DONE), EMPTY],
        flags: OTHER,
        length: 0,
        first: &[],
    },
    Sheet {
        name: "a discard leaves an equal object entered",
        size: 8,
        lines: &[
            PUSH,
            TWO,
            SHARED,
            Line(Call::Snapshot, Reply::Taken { head: 0, tail: 6 }),
            PUSH,
            TWO,
            Line(Call::PopPack(false), Reply::Number(Some(ObjIdx(1)))),
            Line(Call::RevertSnapshot(3), Reply::Nothing),
            PUSH,
            TWO,
            SHARED,
        ],
        flags: NONE,
        length: 2,
        first: &[1, 2],
    },
    Sheet {
        name: "nothing is packed at the end",
        size: 8,
        lines: &[START, TWO, END],
        flags: NONE,
        length: 2,
        first: &[1, 2],
    },
    Sheet {
        name: "closing under a soft flag",
        size: 8,
        lines: &[
            PUSH,
            TWO,
            Line(Call::SetErr(INT_OVERFLOW), Reply::Flags(INT_OVERFLOW)),
            SHARED,
        ],
        flags: INT_OVERFLOW,
        length: 0,
        first: &[],
    },
    Sheet {
        name: "closing under a hard flag",
        size: 8,
        lines: &[
            PUSH,
            TWO,
            Line(Call::SetErr(TWO_OVERFLOWS), Reply::Flags(TWO_OVERFLOWS)),
            EMPTY,
        ],
        flags: TWO_OVERFLOWS,
        length: 0,
        first: &[],
    },
    Sheet {
        name: "a link to its own object at Head",
        size: 16,
        lines: &[
            START,
            PUSH,
            NINES,
            Line(link_from!(0..2, Head), DONE),
            SHARED,
            END,
        ],
        flags: NONE,
        length: 2,
        first: &[0, 0],
    },
    Sheet {
        name: "a link to its own object at Tail",
        size: 16,
        lines: &[
            START,
            PUSH,
            NINES,
            Line(link_from!(0..2, Tail), DONE),
            SHARED,
            END,
        ],
        flags: OTHER,
        length: 0,
        first: &[],
    },
];

// All of them: the very table that is proved of the model.
pub fn sheets() -> &'static [Sheet<'static>]
    ensures answer { map sheet_of result.now ≡ proved_sheets }
{
    &SHEETS
}
