//! What is proved of the statuses of runs.
ghost use Rattle.blifww_tool.specs.Statuses.{StatusesHaveCauses};

/// Each status of a run comes only with its cause.
pub fn statuses_have_causes()
    ensures { StatusesHaveCauses }
{}
