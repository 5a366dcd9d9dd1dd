//! Which session a worker's calls find present.

ghost use Rattle.pool_promises.specs.Laws.{SessionsStayPresent};

/// A session is present to each call of its worker behind its Enter, up to and with the first that
/// asks to enter or to leave, whatever others call.
pub fn sessions_stay_present()
    ensures { SessionsStayPresent }
{}
