//! Laws of the rule: each function does nothing, and its contract is the law.
ghost use Rattle.std.specs.Prelude.{Bool, List, ℕ};
ghost use Rattle.ww_rule.specs.declared.pattern.Injection.{Injection};
ghost use Rattle.ww_rule.specs.Wireworld.{Plane};
ghost use Rattle.ww_rule.specs.Laws.{KeepsTranslations, KeepsMirrors, IsUndrivenEvolution, IsLocal, StaysInBox, StaysFinite, StreamsAreInjected};
ghost use Rattle.ww_rule.specs.Turns.{KeepsTurns, DrivesTurned};
ghost use Rattle.ww_rule.specs.Contexts.{ContextsAreInjected};
ghost use Rattle.ww_rule.specs.DrivenLaws.{KeepsMirrorsDown, DrivesAnywhere, IsCausal, IsDrivenLocally, StepsWithInjections, ListsAreInjected, StreamsGoOn};

/// The rule, and any number of its generations, commute with translations.
pub fn keeps_translations()
    ensures { KeepsTranslations }
{}

/// The rule, and any number of its generations, commute with mirrors from west to east.
pub fn keeps_mirrors()
    ensures { KeepsMirrors }
{}

/// The rule, and any number of its generations, commute with mirrors from north to south.
pub fn keeps_mirrors_down()
    ensures { KeepsMirrorsDown }
{}

/// The rule, and any number of its generations, commute with the exchange of columns and rows.
pub fn keeps_turns()
    ensures { KeepsTurns }
{}

/// A driven evolution commutes with the exchange of columns and rows, if its injections are turned
/// with it.
pub fn drives_turned()
    ensures { DrivesTurned }
{}

/// A pattern that is not driven evolves by the rule alone.
pub fn is_undriven_evolution()
    ensures { IsUndrivenEvolution }
{}

/// A cell's next state depends only on the cells within distance 1, and its state after n
/// generations only on those within distance n.
pub fn is_local()
    ensures { IsLocal }
{}

/// Cells outside a pattern's box stay empty for ever, under the rule and under injections in the
/// box.
pub fn stays_in_box()
    ensures { StaysInBox }
{}

/// A plane with finitely many cells keeps finitely many.
pub fn stays_finite()
    ensures { StaysFinite }
{}

/// Streams inject at generation cycle * period, at the cell of each input whose bit is 1 in that
/// cycle, and nowhere else.
pub fn streams_are_injected()
    ensures { StreamsAreInjected }
{}

/// A driven evolution commutes with translations and mirrors, if its injections are moved and
/// mirrored with it.
pub fn drives_anywhere()
    ensures { DrivesAnywhere }
{}

/// What is injected after a generation changes nothing at that generation.
pub fn is_causal()
    ensures { IsCausal }
{}

/// A driven cell's state at generation n depends only on the cells and the injections within
/// distance n.
pub fn is_driven_locally()
    ensures { IsDrivenLocally }
{}

/// `Plane::inject`, and then `step_driven` generation by generation, give the evolution driven by a
/// list.
pub fn steps_with_injections()
    ensures { (injections : List Injection) (p : Plane) → StepsWithInjections injections p }
{}

/// A list makes due exactly its injections; neither their order nor repetition changes what it
/// drives.
pub fn lists_are_injected()
    ensures { ListsAreInjected }
{}

/// Each context injects 32 generations after the one before: at generation 32 * context + cycle *
/// period, at the cell of each input whose bit is 1 in that cycle of that context, and nowhere
/// else. A list of exactly these injections injects the same, rows of 0 bits at the end of each
/// context inject nothing, and one context alone injects what streams do.
pub fn contexts_are_injected()
    ensures { ContextsAreInjected }
{}

/// Rows of bits that come after others change nothing before their own cycles, and rows of 0 bits
/// change nothing at all.
pub fn streams_go_on()
    ensures { (period : ℕ) (cells : List (ℕ × ℕ)) (rows later : List (List Bool))
        → StreamsGoOn period cells rows later }
{}
