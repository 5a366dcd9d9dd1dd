//! Laws of tables of jobs. Each is the contract of a function that computes nothing.

ghost use Rattle.template_jobs.specs.Told.{HistoriesAreRead, MovesAreTold};

/// A move that a table takes is told to it, whatever it was told before.
pub fn moves_are_told()
    ensures { MovesAreTold }
{}

/// A table that was told a history's moves answers by that history's jobs, has counted its
/// templates, and refuses each template as after that history.
pub fn histories_are_read()
    ensures { HistoriesAreRead }
{}
