//! What is written of plans reads back, and how far runs go. The functions here do nothing; their clauses are laws.
ghost use Rattle.made_summary.specs.Laws.{FewCyclesAreInTime, RunsAreBounded, WrittenPlansRead};

/// The text of an admissible plan and its table reads as the plan's pattern and as the table.
pub fn written_plans_read()
    ensures { WrittenPlansRead }
{}

/// The weight and the number of cycles bound the generation of the last bits; if that bound is
/// within the limit, no run goes too far.
pub fn few_cycles_are_in_time()
    ensures bounded { RunsAreBounded }
    ensures in_time { FewCyclesAreInTime }
{}
