// What the words ask for, with what was read for it.
ghost use Rattle.std.specs.Prelude.{◌≡◌, IfOk, IfErr};
ghost use Rattle.wwroute_tool.specs.Answers.{answer_text, notice_for, report_line, report_of, IsWritableAnswer};
ghost use Rattle.wwroute_tool.specs.Commands.{HasTextReason, Makes, TellsBeside};
ghost use Rattle.wwroute_tool.specs.Tasks.{ForTask, IsSoundTask, IsTaskOf, RefusesTask};

use crate::answer::Answer;
use crate::extract::extract;
use crate::report::Report;
use crate::route::drawn;
use crate::{Command, RouteRefusal};
use lists::Bytes;
use netlist_text::{Netlist, netlist_of};
use routed_plans::ShownNets;
use std::alloc::Global;

/// What a command does with a text.
#[derive(Drop)]
pub enum Task {
    /// It extracts the netlist that the text of a pattern carries.
    Extract(Bytes),
    /// It draws a netlist, with lines for these of its nets.
    Route(Netlist, ShownNets),
}

// A heavier netlist is drawn after a notice: its search takes more than about two seconds.
const QUICK_WEIGHT: u64 = 400;

// What is told before a netlist of this weight is drawn.
fn notice_for(weight: u64) -> Report
    ensures { result ≡ notice_for weight }
{
    if weight <= QUICK_WEIGHT {
        Report::Nothing
    } else {
        Report::Notice(weight)
    }
}

/// Returns the task of a command and a text.
pub fn task_of(alloc: Global, command: Command, text: Bytes) -> Result<Task, RouteRefusal>
    ensures task { IfOk result (IsTaskOf command text) }
    ensures sound { IfOk result IsSoundTask }
    ensures refused { IfErr result (HasTextReason command text) }
{
    match command {
        Command::Extract => Ok(Task::Extract(text)),
        Command::Route(nets) => {
            let netlist = netlist_of(alloc, text.as_slice())?;
            Ok(Task::Route(netlist, nets))
        }
    }
}

impl Task {
    ghost use Rattle.wwroute_tool.specs.Tasks.{notice_of};

    /// Returns what is told before the task is done: a notice, if a netlist is heavy.
    pub fn notice(&self) -> Report
        ensures { result ≡ notice_of self.now }
    {
        match self {
            Task::Extract(_) => Report::Nothing,
            Task::Route(netlist, _) => notice_for(netlist.flat.weight),
        }
    }

    /// Does the task. All memory that this needs is taken here.
    pub fn answer(&self, alloc: Global) -> Result<Answer, RouteRefusal>
        requires { IsSoundTask self.now }
        ensures makes { IfOk result (λ answer. ForTask self.now (λ command text.
            Makes command text (answer_text answer))) }
        ensures tells { IfOk result (λ answer. ForTask self.now (λ command text.
            TellsBeside command (answer_text answer) (report_line (report_of answer)))) }
        ensures writable { IfOk result IsWritableAnswer }
        ensures refused { IfErr result (λ r. ForTask self.now (λ command text.
            RefusesTask command text self.now r)) }
    {
        match self {
            Task::Extract(text) => match extract(alloc, text.as_slice()) {
                Ok(lift) => Ok(Answer::Netlist(lift)),
                Err(refusal) => Err(refusal),
            },
            Task::Route(netlist, nets) => Ok(drawn(alloc, netlist, *nets)?),
        }
    }
}
