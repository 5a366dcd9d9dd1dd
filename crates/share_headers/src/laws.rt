//! What the headers of submissions are to a history.

ghost use Rattle.share_headers.specs.Submitted.{SubmittedIsRebuilt};

/// The header of a submission by what a channel, a live job and the last tip give is the one that
/// the history rebuilds for the share.
pub fn checked_headers_are_rebuilt()
    ensures { SubmittedIsRebuilt }
{}
