//! What holds of every proxy, whatever it was brought.

ghost use Rattle.proxy_rules.specs.Laws.{
  AnswersAreOfSubmissions,
  AnswersGoToTheirMiner,
  ExtranoncesHaveOneLead,
  LeadsDiffer,
  SharesHaveTheIdsOfLines,
  SpacesAreApart,
  SubmissionsAreAnsweredOnce,
  SubmissionsAreOfLines,
};
ghost use Rattle.proxy_rules.specs.Sayings.{SentLinesAreSilent, SessionsSayTheirOwn};

/// The leads of two miners that are joined differ, and each seat is of the upstream's channel.
pub fn leads_differ()
    ensures { LeadsDiffer }
{}

/// An extranonce behind the upstream's prefix begins with one lead at most.
pub fn extranonces_have_one_lead()
    ensures { ExtranoncesHaveOneLead }
{}

/// No extranonce is in the space of two miners that are joined, and each is in the upstream's.
pub fn spaces_are_apart()
    ensures { SpacesAreApart }
{}

/// What goes upstream is the setup and messages, of which the submissions are those of lines, each with
/// the next sequence number.
pub fn submissions_are_of_lines()
    ensures { SubmissionsAreOfLines }
{}

/// A share that a line asks for has the id of that line, by which it is answered.
pub fn shares_have_the_ids_of_lines()
    ensures { SharesHaveTheIdsOfLines }
{}

/// Each submission that went upstream was answered once, or its miner left before, or it waits.
pub fn submissions_are_answered_once()
    ensures { SubmissionsAreAnsweredOnce }
{}

/// What is answered, dropped or waits are the submissions of lines, each once, with its caller and
/// the id of its line.
pub fn answers_are_of_submissions()
    ensures { AnswersAreOfSubmissions }
{}

/// A message that answers submissions, and the end of the upstream, say to each miner the answers to
/// its own, and nothing else.
pub fn answers_go_to_their_miner()
    ensures { AnswersGoToTheirMiner }
{}

/// A session says nothing to a line whose share it asks to send.
pub fn sent_lines_are_silent()
    ensures { SentLinesAreSilent }
{}

/// At each event a caller is written just what its own session says, which answers its line where that
/// isn't sent on and nothing else, and then the answers to its submissions.
pub fn sessions_say_their_own()
    ensures { SessionsSayTheirOwn }
{}
