//! A ledger's bytes, read back and judged: the verdicts, when each of them fits, the line that each
//! is printed as, and the auditor, which is told the bytes piece by piece. It holds one record at a
//! time, and keeps no list of events.
//!
//! The commands over a ledger's file. `audit LEDGER`: it is read to its end or to its first defect,
//! and what is found is said on standard output. `migrate OLD NEW`: a legal ledger of either format
//! is kept again, in format 2, in a new file; what is no legal ledger is refused with the words of
//! an audit.
#![tactic(auto)]

mod ahead;
mod audit_command;
mod auditing;
mod auditor;
mod causes;
mod copying;
mod format;
mod judging;
mod laws;
mod migrating;
mod pieces;
mod records;
mod verdict;

pub use ahead::look_ahead_in_records;
pub use audit_command::audit_ledger;
pub use auditing::audit;
pub use auditor::Auditor;
pub use causes::cause_words;
pub use copying::{Copied, Copier, copy_ledger};
pub use format::{BODY_LIMIT, Format, HEAD_LEN, body_len};
pub use judging::verdict_of;
pub use laws::{kept_ledgers_are_legal, old_ledgers_are_legal, verdicts_are_one};
pub use migrating::migrate_ledger;
pub use pieces::append_ledger;
pub use verdict::{Verdict, write_verdict};
