//! The promise of the pool, of what the commands that serve leave.

ghost use Rattle.pool_promises.specs.Headline.{DurableServeKeepsItsPromise, DurableSoloKeepsItsPromise, ServeKeepsItsPromise, SoloKeepsItsPromise};

use crate::served_callers_are_answered;
use history_laws::{
    calls_are_judged, conditions_stand_by_themselves, credits_are_called, no_share_twice,
    spaces_are_disjoint,
};
use payout_laws::{rewards_are_conserved, summaries_are_of_blocks};

/// Whatever the sessions send, however that is cut and interleaved: where `serve` served, it left one
/// legal history, which begins with the settings' Start; each session was answered by the fronts of that
/// history; a share was credited exactly where no condition failed, and else refused by the first that
/// failed; open extranonce spaces are disjoint; each reward is its payouts plus the pool's part.
pub fn serve_keeps_its_promise()
    ensures { ServeKeepsItsPromise }
{
    calls_are_judged();
    conditions_stand_by_themselves();
    credits_are_called();
    spaces_are_disjoint();
    rewards_are_conserved();
    no_share_twice();
    served_callers_are_answered();
    summaries_are_of_blocks();
}

/// So does `durable serve`, on the history that it found on its disk: that begins with the settings' Start
/// too, and what it leaves begins with what it found.
pub fn durable_serve_keeps_its_promise()
    ensures { DurableServeKeepsItsPromise }
{
    calls_are_judged();
    conditions_stand_by_themselves();
    credits_are_called();
    spaces_are_disjoint();
    rewards_are_conserved();
    no_share_twice();
    served_callers_are_answered();
    summaries_are_of_blocks();
}

/// So does `solo`, and `declare`, of their one session: each of its calls stands at all that those before it
/// left.
pub fn solo_keeps_its_promise()
    ensures { SoloKeepsItsPromise }
{
    calls_are_judged();
    conditions_stand_by_themselves();
    credits_are_called();
    spaces_are_disjoint();
    rewards_are_conserved();
    no_share_twice();
    served_callers_are_answered();
    summaries_are_of_blocks();
}

/// So does `durable solo`, on the history that it found on its disk.
pub fn durable_solo_keeps_its_promise()
    ensures { DurableSoloKeepsItsPromise }
{
    calls_are_judged();
    conditions_stand_by_themselves();
    credits_are_called();
    spaces_are_disjoint();
    rewards_are_conserved();
    no_share_twice();
    served_callers_are_answered();
    summaries_are_of_blocks();
}
