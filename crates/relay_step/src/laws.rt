//! Laws of steps, each the contract of a function that does nothing.

ghost use Rattle.relay_step.specs.Laws.{StepsJoin, StepsRun};

/// Steps are a run: their messages make their rows.
pub fn steps_run()
    ensures { StepsRun }
{}

/// Steps join and come apart.
pub fn steps_join()
    ensures { StepsJoin }
{}
