// The Coverage table of OpenType, format 1: which glyphs a subtable is about, in numerical order.
#![tactic(auto)]

ghost use Rattle.std.specs.Prelude.{◌≡◌};
ghost use Rattle.std.specs.List.Sorted.{IsSorted, IsStrictlyIncreasing};
ghost use Rattle.std.specs.Ordering.{nat_cmp};
ghost use Rattle.coverage.specs.Coverage.{among};

pub mod table;

pub use table::{CoverageFault, coverage_table};

// In numerical order, with repetitions.
fn sorted(mut ids: Vec<u16>) -> Vec<u16>
    ensures rising { IsSorted nat_cmp result.items }
    ensures same { among result.items ≡ among ids.items }
{
    ids.sort_unstable();
    ids
}

// Each once.
fn distinct(mut sorted: Vec<u16>) -> Vec<u16>
    requires rising { IsSorted nat_cmp sorted.items }
    ensures ordered { IsStrictlyIncreasing result.items }
    ensures same { among result.items ≡ among sorted.items }
{
    sorted.dedup();
    sorted
}

// The glyph ids in numerical order, each once.
pub fn glyph_set(ids: Vec<u16>) -> Vec<u16>
    ensures ordered { IsStrictlyIncreasing result.items }
    ensures same { among result.items ≡ among ids.items }
{
    distinct(sorted(ids))
}
