// Writing a Coverage table of format 1 field by field, and why there may be none.
ghost use Rattle.std.specs.Prelude.{◌≡◌, ◌≤◌, ◌++◌, length, IfOk, OnOk};
ghost use Rattle.scalar.specs.BigEndian.{big_endian};
ghost use Rattle.coverage.specs.Coverage.{glyph_array};
ghost use Rattle.coverage.specs.Built.{Built};
ghost use Rattle.coverage.specs.declared.table.CoverageFault.TheVariants.{NoMemory};

use scalar::{CountScalar, Scalar, write_at};
use std::alloc::{AllocError, Global};
use std::error::Error;
use std::fmt;

// The format of a plain list of glyphs; the other one lists ranges.
const FORMAT: u16 = 1;

// Why there is no table.
#[derive(Clone, Copy, PartialEq, Eq, Debug)]
pub enum CoverageFault {
    // So many glyphs, which a uint16 cannot count.
    TooManyGlyphs(usize),
    NoMemory,
}

impl fmt::Display for CoverageFault {
    fn fmt<W: fmt::Write>(&self, f: &mut fmt::Formatter<W>) -> fmt::Result {
        match self {
            CoverageFault::TooManyGlyphs(count) => write!(
                f,
                "{count} glyphs are more than a Coverage table of format 1 counts"
            ),
            CoverageFault::NoMemory => f.write_str("no memory for the table"),
        }
    }
}

impl Error for CoverageFault {}

impl From<AllocError> for CoverageFault {
    ghost from_gives = { λ _ fault. fault ≡ NoMemory };

    fn from(_error: AllocError) -> CoverageFault {
        Self::NoMemory
    }
}

// Puts a scalar at the end of a table, from a field of four bytes, in which each scalar has room.
fn embed<S: Scalar>(table: &mut Vec<u8>, value: S) -> Result<(), AllocError>
    ensures state { OnOk result (table.new.items ≡ table.old.items ++ S.Scalar.bytes value) }
{
    let mut field = [0; 4];
    let _ = write_at(&mut field, 0, value);
    table.extend_from_slice(&field[0..S::size()])
}

// The table of a format, a count and ids.
fn written(heap: Global, format: u16, count: u16, glyphs: &[u16]) -> Result<Vec<u8>, AllocError>
    requires counted { length glyphs.now ≤ 65535 }
    ensures answer { IfOk result (λ table. table.items ≡ big_endian 2 format ++ (big_endian 2 count ++ glyph_array glyphs.now)) }
{
    let mut table = Vec::with_capacity(heap, 4 + 2 * glyphs.len())?;
    embed(&mut table, format)?;
    embed(&mut table, count)?;
    for glyph in glyphs {
        embed(&mut table, *glyph)?;
    }
    Ok(table)
}

// The table of these glyphs, unless there are too many or no memory is left for it.
pub fn coverage_table(heap: Global, glyphs: &[u16]) -> Result<Vec<u8>, CoverageFault>
    ensures answer { Built glyphs.now result }
{
    let count = u16::from_count(glyphs.len()).ok_or(CoverageFault::TooManyGlyphs(glyphs.len()))?;
    Ok(written(heap, FORMAT, count, glyphs)?)
}
