//! What is said of the commands of several runs.

ghost use Rattle.pool_commands.specs.DurableRuns.{OthersStand, ServingsAreRuns, SessionsAreRuns};

/// What a command does with a disk is a run on it, that went on or that stood; so, by
/// `ledger_resume::nothing_stored_is_lost`, what was there for good stands at the front of the history of
/// each run that follows, through any number of crashes.
pub fn commands_are_runs()
    ensures sessions { SessionsAreRuns }
    ensures servings { ServingsAreRuns }
    ensures others { OthersStand }
{}
