//! What a session knows of declarations, and what it makes of what it hears.

ghost use Rattle.std.specs.Prelude.{[], ◌∷◌, IfOk};
ghost use Rattle.job_declaration.specs.Declaring as rules;
ghost use Rattle.job_declaration.specs.Declaring.{Says};
ghost use Rattle.job_declaration.specs.Meeting.{IsAnswer};

use crate::coinbases::is_coinbase;
use crate::filling::{filled, listed_by, txids_of};
use crate::frames::{put_error, put_missing, put_reply};
use crate::grants::{given_by, push_given};
use crate::transaction_ids::Ids;
use crate::waiting::Waiting;
use crate::{Asked, DeclareError, Given, TxIds, merkle_path};
use declare_msgs::{Declare, DeclareMiningJob, ProvideMissingTransactionsSuccess};
use pool_history::{Reply, Request};
use std::alloc::{AllocError, Global};
use std::marker::Model;
use std::mem;
use sv2_frames::Frame;
use sv2_types::{Blob, Hashes, SeqBytes, Str255};

/// What comes of a frame of a declaration.
#[derive(Drop)]
pub enum Declared {
    /// These bytes are said: one frame, or nothing.
    Say(Blob),
    /// A Grant is asked of the pool.
    Ask(Request),
    /// The payload of this kind isn't its message.
    BadMessage(u8),
}

/// The declarations of one session. Contracts see what the rules say that it knows.
#[derive(Drop)]
pub struct Declarer {
    given: Vec<Given>,
    known: Ids,
    waiting: Option<Waiting>,
    asked: Asked,
}

impl Model for Declarer {
    ghost use Rattle.job_declaration.specs.State.{DeclareState};

    ghost Value = { DeclareState };

    ghost use Rattle.std.specs.Prelude.{vec_capacity, vec_len};
    ghost use Rattle.job_declaration.specs.Room.{HasRoomFor};

    ghost view = { λ declarer. record {
      given = declarer.given.items;
      known = declarer.known;
      waiting = declarer.waiting;
      asked = declarer.asked;
    } };

    ghost invariant = { λ declarer.
        HasRoomFor declarer.asked (vec_len declarer.given) (vec_capacity declarer.given) };
}

impl Declarer {
    ghost use Rattle.std.specs.Prelude.{◌≡◌, ◌++◌, ◌≤◌, ◌<◌, ◌^◌, IfOk, OnOk, OnErr, length};
    ghost use Rattle.std.specs.List.{flat_map};
    ghost use Rattle.declare_msgs.specs.Seen.{declare_mining_job, provide_missing_transactions_success};
    ghost use Rattle.job_declaration.specs.Declaring as rules;
    ghost use Rattle.job_declaration.specs.State as state;
    ghost use Rattle.job_declaration.specs.Meeting.{MeetsFrame, Reacts, declared_id};
    ghost use Rattle.job_declaration.specs.Room.{HoldsFew};

    /// A session that heard nothing.
    pub fn new(alloc: Global) -> Declarer
        ensures { result ≡ state.start }
    {
        Declarer {
            given: Vec::new(alloc),
            known: Ids::new(alloc),
            waiting: None,
            asked: Asked::Nothing,
        }
    }

    /// What it makes of a frame that is taken: a declaration, or the transactions that one lacks.
    pub fn on_frame(&mut self, alloc: Global, frame: &Frame<'_>) -> Result<Declared, AllocError>
        ensures ok { IfOk result (λ declared.
            MeetsFrame self.old frame.now.kind frame.now.payload.now declared self.new) }
        ensures err { OnErr result (self.new ≡ self.old) }
    {
        let read = declare_msgs::read(frame.kind, frame.payload);
        match &read {
            Err(_) => Ok(Declared::BadMessage(frame.kind)),
            Ok(Declare::DeclareMiningJob(job)) => self.declare(alloc, job),
            Ok(Declare::ProvideMissingTransactionsSuccess(brought)) => self.bring(alloc, brought),
            Ok(
                Declare::AllocateMiningJobToken(_)
                | Declare::AllocateMiningJobTokenSuccess(_)
                | Declare::ProvideMissingTransactions(_)
                | Declare::DeclareMiningJobSuccess(_)
                | Declare::DeclareMiningJobError(_)
                | Declare::PushSolution(_),
            ) => Ok(nothing(alloc)),
        }
    }

    /// The session asks for a token for this user, beside any declaration.
    pub fn ask_token(&mut self, alloc: Global, identity: &str) -> Result<(), AllocError>
        requires { length identity.now ≤ 255 }
        ensures ok { OnOk result (self.new ≡ rules.asking_token self.old identity.now) }
        ensures err { OnErr result (self.new ≡ self.old) }
    {
        let identity = Str255::of(alloc, identity)?;
        self.given.reserve(1)?;
        self.asked = Asked::Token(identity);
        Ok(())
    }

    /// Notes a token that was asked for and is granted, and appends what answers a declaration.
    pub fn on_reply(&mut self, reply: &Reply, out: &mut Vec<u8>) -> Result<(), AllocError>
        ensures said { OnOk result (out.new.items ≡ out.old.items
            ++ flat_map (λ frame. frame) (rules.reply_frames self.old.asked reply.now)) }
        ensures heard { OnOk result (self.new ≡ rules.heard self.old reply.now) }
        ensures err { OnErr result ((self.new ≡ self.old) × (out.new.items ≡ out.old.items)) }
    {
        put_reply(&self.asked, reply, out)?;
        self.hear(reply);
        Ok(())
    }

    /// Notes a token that was asked for and is granted. It takes no memory.
    pub fn hear(&mut self, reply: &Reply)
        ensures { self.new ≡ rules.heard self.old reply.now }
    {
        let Reply::Granted(number, _) = reply else {
            return;
        };
        match mem::replace(&mut self.asked, Asked::Nothing) {
            Asked::Token(identity) => {
                let number = *number;
                push_given(&mut self.given, Given { number, identity });
            }
            Asked::Declared(request_id) => self.asked = Asked::Declared(request_id),
            Asked::Nothing => {}
        }
    }

    /// The request of the declaration for which the pool was asked last, if it was for one.
    pub fn declared(&self) -> Option<u32>
        ensures { result ≡ declared_id self.now.asked }
    {
        match &self.asked {
            Asked::Declared(request_id) => Some(*request_id),
            Asked::Nothing | Asked::Token(_) => None,
        }
    }

    /// That it knows fewer than 2^16 transactions, and fewer than 2^16 are waited for.
    pub fn few_are_held(&self)
        ensures { HoldsFew self.now }
    {
        self.known.are_few();
        if let Some(waiting) = &self.waiting {
            let _listed = &waiting.listed;
        }
    }

    fn declare(&mut self, alloc: Global, job: &DeclareMiningJob<'_>) -> Result<Declared, AllocError>
        ensures ok { IfOk result (λ declared.
            Reacts (rules.on_declaring self.old (declare_mining_job job.now)) declared self.new) }
        ensures err { OnErr result (self.new ≡ self.old) }
    {
        let request_id = job.request_id;
        let Some(given) = given_by(&self.given, job.mining_job_token) else {
            return refusal(alloc, request_id, DeclareError::Token);
        };
        let identity = Str255::of(alloc, given.identity.text())?;
        if !is_coinbase(alloc, job.coinbase_tx_prefix, job.coinbase_tx_suffix)? {
            return refusal(alloc, request_id, DeclareError::Coinbase);
        }
        let listed = listed_by(alloc, &self.known, job.wtxid_list.items())?;
        match filled(alloc, &listed, SeqBytes::of(&[], 0))? {
            Some(transactions) => self.accept(alloc, request_id, identity, &transactions),
            None => self.wait(
                alloc,
                Waiting {
                    request_id,
                    identity,
                    listed,
                },
            ),
        }
    }

    fn bring(
        &mut self,
        alloc: Global,
        brought: &ProvideMissingTransactionsSuccess<'_>,
    ) -> Result<Declared, AllocError>
        ensures ok { IfOk result (λ declared.
            Reacts (rules.on_bringing self.old (provide_missing_transactions_success brought.now))
            declared self.new) }
        ensures err { OnErr result (self.new ≡ self.old) }
    {
        let Some(waiting) = &self.waiting else {
            return Ok(nothing(alloc));
        };
        let request_id = waiting.request_id;
        if request_id != brought.request_id {
            return Ok(nothing(alloc));
        }
        let identity = Str255::of(alloc, waiting.identity.text())?;
        match filled(alloc, &waiting.listed, brought.transaction_list)? {
            Some(transactions) => self.accept(alloc, request_id, identity, &transactions),
            None => {
                let said = refusal(alloc, request_id, DeclareError::Transactions)?;
                self.waiting = None;
                Ok(said)
            }
        }
    }

    /// A declaration of these transactions is accepted.
    fn accept(
        &mut self,
        alloc: Global,
        request_id: u32,
        identity: Str255,
        transactions: &[TxIds],
    ) -> Result<Declared, AllocError>
        requires { length transactions.now < 2 ^ 16 }
        ensures ok { IfOk result (λ declared.
            Reacts (rules.accepted self.old request_id identity transactions.now)
            declared self.new) }
        ensures err { OnErr result (self.new ≡ self.old) }
    {
        let path = merkle_path(alloc, &txids_of(alloc, transactions)?)?;
        self.known = Ids::of(alloc, transactions)?;
        self.waiting = None;
        self.asked = Asked::Declared(request_id);
        Ok(Declared::Ask(Request::Grant(identity, Some(Hashes::from_vec(path)))))
    }

    /// A declaration waits in place of any other.
    fn wait(&mut self, alloc: Global, waiting: Waiting) -> Result<Declared, AllocError>
        ensures ok { IfOk result (λ declared.
            Reacts (rules.waits self.old waiting) declared self.new) }
        ensures err { OnErr result (self.new ≡ self.old) }
    {
        let mut frame = Vec::new(alloc);
        put_missing(alloc, waiting.request_id, &waiting.listed, &mut frame)?;
        self.waiting = Some(waiting);
        Ok(Declared::Say(Blob::from_vec(frame)))
    }
}

/// Nothing is said.
fn nothing(alloc: Global) -> Declared
    ensures { IsAnswer (Says []) result }
{
    Declared::Say(Blob::from_vec(Vec::new(alloc)))
}

/// A declaration is refused.
fn refusal(alloc: Global, request_id: u32, error: DeclareError) -> Result<Declared, AllocError>
    ensures { IfOk result (IsAnswer (Says (rules.error_frame request_id error ∷ []))) }
{
    let mut frame = Vec::new(alloc);
    put_error(request_id, error, &mut frame)?;
    Ok(Declared::Say(Blob::from_vec(frame)))
}
