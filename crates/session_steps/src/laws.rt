//! What holds of each session.

ghost use Rattle.session_steps.specs.Laws.{AllBytesDecide, MetAreFrames, TakenIsMet};

/// However the bytes came, those that a session took are the frames that it met, one after the
/// other, and then what isn't met.
pub fn taken_bytes_are_met()
    ensures { TakenIsMet }
{}

/// All that a session met was whole frames, with payloads within its limit.
pub fn met_are_frames()
    ensures { MetAreFrames }
{}

/// The bytes that aren't met decide what comes of them: one frame is met, or a header is over the
/// limit, or more bytes are waited for, and no two of these.
pub fn bytes_decide()
    ensures { AllBytesDecide }
{}
