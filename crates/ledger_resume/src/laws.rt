//! What is said of refusals, and of what a resumed book answers.

ghost use Rattle.ledger_resume.specs.Answers.{ResumedBooksAnswerAlike};
ghost use Rattle.ledger_resume.specs.Refusals.{HistoriesAreNotRefused};

/// The records of a history have no refusal but for want of memory.
pub fn histories_are_not_refused()
    ensures { HistoriesAreNotRefused }
{}

/// A book that was resumed answers as one that never stopped.
pub fn resumed_books_answer_alike()
    ensures { ResumedBooksAnswerAlike }
{}
