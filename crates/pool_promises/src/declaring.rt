//! What holds of each session that takes declarations.

ghost use Rattle.pool_promises.specs.Declaring.{DeclarationsAreByRules, DeclaredGrantsAreAnswered, FixedPathsAreAskedFor, FixedPathsAreOfListed};

use job_declaration::asked_paths_are_of_transactions;

/// What a session knows of declarations at a frame is what the rules make of all that it heard
/// before, and by this it answers the frame, where that declares a job or brings transactions.
pub fn declarations_are_by_the_rules()
    ensures { DeclarationsAreByRules }
{}

/// What is put of the reply to a Grant for a declaration is what the rules answer with, after all
/// that the session heard before.
pub fn declared_grants_are_answered()
    ensures { DeclaredGrantsAreAnswered }
{}

/// Each path that a session asks a Grant for comes of a declaration, and is that of the ids of the
/// transactions that this lists, in their order.
pub fn fixed_paths_are_of_listed_transactions()
    ensures { FixedPathsAreOfListed }
{
    asked_paths_are_of_transactions();
}

/// A history gets an event that fixes a path only where a Grant of this path is asked for.
pub fn fixed_paths_are_asked_for()
    ensures { FixedPathsAreAskedFor }
{}
