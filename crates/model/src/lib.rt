// The meaning of the serializer: its state, what each call does, and what holds of every run of calls. The
// definitions stand in specs/; the functions here carry the theorems about them on their contracts.
#![tactic(auto)]

ghost use Rattle.model.specs.Edges.{Edges};
ghost use Rattle.model.specs.Law.{LawStands};
ghost use Rattle.model.specs.Owning.{Owning};
ghost use Rattle.model.specs.Sheets.{SheetsHold};
ghost use Rattle.model.specs.Standing.{Standing};

pub mod limit;
pub mod snapshot;

// Each worked sheet gives the answers, the flags and the output that it says.
pub fn sheets_hold()
    ensures { SheetsHold }
{}

// Over every memory, register and list of calls: packed objects lie stacked from the end and unwritten, numbers
// name what was closed and equal objects share one, and the output shows in each link's field how far its child is.
pub fn law_stands()
    ensures { LawStands }
{}

// Hard flags never go away, and an ended serializer does not change.
pub fn flags_and_ending_stay()
    ensures { Standing }
{}

// A register that was empty and that its owner leaves alone never answers no, and no two equal objects are
// both entered.
pub fn register_suffices()
    ensures { Owning }
{}

// If only live snapshots are reverted, head is never below the open object's own, and every rewind meets an edge.
pub fn rewinds_meet_edges()
    ensures { Edges }
{}
