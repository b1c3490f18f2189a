// Plans: what an action comes to for the one node that it is about.
ghost use Rattle.std.specs.Prelude.{◌≡◌};
ghost use Rattle.charts.specs.declared.Report.TheVariants as R;
ghost use Rattle.charts.specs.declared.Marking.TheVariants as M;
ghost use Rattle.charts.specs.State.{concatenated_after};
ghost use Rattle.deciding.specs.Marks.{clears_misled, clears_won};
ghost use Rattle.deciding.specs.Plans.{doing};

use charts::{Cell, Marking, Phase, Refusal, Report};

// The report, the bus's next phase, the next cell of the node that the action is about, and the other marks changed.
#[derive(Clone, Copy)]
pub struct Plan {
    pub report: Report,
    pub phase: Phase,
    pub cell: Cell,
    pub marking: Marking,
}

// Nothing is reported and no other marks are changed.
pub(crate) fn quietly(phase: Phase, cell: Cell) -> Result<Plan, Refusal>
    ensures { result ≡ doing R.Silent phase cell M.Nothing }
{
    Ok(Plan {
        report: Report::Silent,
        phase,
        cell,
        marking: Marking::Nothing,
    })
}

pub fn clears_misled(marking: Marking) -> bool
    ensures { result ≡ clears_misled marking }
{
    marking == Marking::Misled
}

pub fn clears_won(marking: Marking) -> bool
    ensures { result ≡ clears_won marking }
{
    marking == Marking::Won
}

// The bus's own mark once a plan is carried out.
pub fn concatenated_after(marking: Marking, concatenated: bool) -> bool
    ensures { result ≡ concatenated_after marking concatenated }
{
    match marking {
        Marking::Concatenated(set) => set,
        _ => concatenated,
    }
}
