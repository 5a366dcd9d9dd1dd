//! What a request is answered with.

use crate::leads::Lead;
use crate::refusals::{
    CustomError, Failed, GrantError, JobError, NameError, OpenError, UpdateError,
};
use crate::shares::Brief;
use crate::telling::Notes;
use std::marker::Model;
use sv2_types::Blob;

/// A class that has a target: at most 60. Contracts see the number.
#[derive(Clone, Copy)]
pub struct Class {
    class: u8,
}

impl Model for Class {
    ghost use Rattle.std.specs.Prelude.{ℕ, ◌≤◌};

    ghost Value = { ℕ };

    ghost view = { λ c. c.class };

    ghost invariant = { λ c. c.class ≤ 60 };

    ghost inverse = { λ n. record { class = n } };
}

impl Class {
    ghost use Rattle.std.specs.Prelude.{◌≡◌, ◌≤◌};

    pub fn of(class: u8) -> Class
        requires { class ≤ 60 }
        ensures { result ≡ class }
    {
        Class { class }
    }

    pub fn value(&self) -> u8
        ensures value { result ≡ self.now }
        ensures most { result ≤ 60 }
    {
        self.class
    }
}

/// The number of a session: below 2^22. Contracts see the number.
#[derive(Clone, Copy)]
pub struct SessionNumber {
    number: u32,
}

impl Model for SessionNumber {
    ghost use Rattle.std.specs.Prelude.{ℕ, ◌<◌, ◌^◌};

    ghost Value = { ℕ };

    ghost view = { λ session. session.number };

    ghost invariant = { λ session. session.number < 2 ^ 22 };

    ghost inverse = { λ n. record { number = n } };
}

impl SessionNumber {
    ghost use Rattle.std.specs.Prelude.{◌≡◌, ◌<◌, ◌^◌};

    pub fn of(number: u32) -> SessionNumber
        requires { number < 2 ^ 22 }
        ensures { result ≡ number }
    {
        SessionNumber { number }
    }

    pub fn value(&self) -> u32
        ensures value { result ≡ self.now }
        ensures few { result < 2 ^ 22 }
    {
        self.number
    }
}

/// An output script of 1 to 100 bytes. Contracts see the bytes.
#[derive(Drop)]
pub struct Script {
    bytes: Blob,
}

impl Model for Script {
    ghost use Rattle.std.specs.Prelude.{ℕ, List, ◌≤◌, length};

    ghost Value = { List ℕ };

    ghost view = { λ script. script.bytes };

    ghost invariant = { λ script. (1 ≤ length script.bytes) × (length script.bytes ≤ 100) };
}

impl Script {
    ghost use Rattle.std.specs.Prelude.{◌≡◌, ◌≤◌, length};

    /// The bytes themselves, which takes no memory.
    pub fn of(bytes: Blob) -> Script
        requires some { 1 ≤ length bytes }
        requires short { length bytes ≤ 100 }
        ensures { result ≡ bytes }
    {
        Script { bytes }
    }

    pub fn bytes(&self) -> &[u8]
        ensures value { result.now ≡ self.now }
        ensures some { 1 ≤ length self.now }
        ensures short { length self.now ≤ 100 }
    {
        self.bytes.bytes()
    }
}

/// What an opening gives.
#[derive(Clone, Copy)]
pub struct Opened {
    pub channel: u32,
    pub class: Class,
    pub lead: Lead,
}

/// The answer to a request. The refusals in it are never for lack of memory.
#[derive(Drop)]
pub enum Reply {
    /// The session's number.
    Entered(SessionNumber),
    /// There are this many Enter events, which is the most.
    PoolFull(u32),
    /// The worker has no present session, or it may not ask this.
    NoSession,
    Left,
    /// The number of a template's new job, or of the job that a tip made live.
    Job(u32),
    TemplateRefused(JobError),
    Opened(Opened),
    OpenRefused(OpenError),
    Named,
    NameRefused(NameError),
    /// A channel and its class.
    Target(u32, Class),
    UpdateRefused(UpdateError),
    Closed,
    NotOpen,
    /// What is needed to compute the header of a submission.
    Brief(Brief),
    /// The work of a share that was booked.
    Credited(u64),
    Refused(Failed),
    /// What is owed to the session, and the place up to which it was told.
    News(u64, Notes),
    /// The number of a token, and the script that its job has to pay to.
    Granted(u64, Script),
    GrantRefused(GrantError),
    /// The number of a miner's own job.
    CustomJob(u32),
    CustomRefused(CustomError),
}
