//! What one session knows, and its public calls.

ghost use Rattle.session_steps.specs.declared.about.About.TheVariants as topic;
ghost use Rattle.v2_sessions.specs.Following.{FollowsReply, RollsAsAsked};

use crate::answering::{put_answer, put_greeting};
use crate::asking::{declare_meaning, mining_meaning, template_meaning};
use crate::foreseeing::Foreseeing;
use crate::meaning::Meaning;
use crate::news::put_note;
use crate::taking::{brings_own_jobs, is_declared_kind, is_feeds_kind, takes_kind};
use job_declaration::{Declared, Declarer};
use pool_history::{Reply, Request, Role, SessionNumber, Submission};
use session_steps::{About, Manner, SetupCode, Step};
use std::alloc::{AllocError, Global};
use std::marker::Model;
use sv2_frames::Frame;
use sv2_messages::kinds;

/// The flags that aren't offered to miners, where versions may be rolled and where not.
const ROLLING_REFUSED: u32 = 0xffff_fff8;

const FIXED_REFUSED: u32 = 0xffff_fffc;

/// One session, from its first frame on: who the other side is, what its setup said, what it asked
/// about last, and what it knows of declarations.
#[derive(Drop)]
pub struct Session {
    role: Role,
    rolling: bool,
    declares: bool,
    flags: Option<u32>,
    number: SessionNumber,
    about: About,
    declarer: Declarer,
    foreseeing: Foreseeing,
}

impl Model for Session {
    ghost use Rattle.session_steps.specs.Talks.{Talk};

    ghost Value = { Talk };

    ghost view = { λ session. record {
      role = session.role;
      rolling = session.rolling;
      declares = session.declares;
      flags = session.flags;
      number = session.number;
      about = session.about;
      declarations = session.declarer;
    } };
}

impl Session {
    ghost use Rattle.std.specs.Prelude.{◌≡◌, ◌++◌, ◌<◌, ◌≤◌, ◌^◌, ℕ, true, if◌then◌else◌, IfOk, OnOk, OnErr, length, is_some, Some};
    ghost use Rattle.pool_history.specs.declared.asking.Request.TheVariants as request;
    ghost use Rattle.job_declaration.specs.Declaring.{asking_token};
    ghost use Rattle.sv2_messages.specs.Messages.{Message};
    ghost use Rattle.sv2_messages.specs.Tables.{declare_table, mining_table, template_table};
    ghost use Rattle.session_steps.specs.Answers as answers;
    ghost use Rattle.session_steps.specs.Meeting.{LeadsBy, Meets, SetsUp, about_asked, noting};
    ghost use Rattle.session_steps.specs.Setups.{refused_flags, setup_by};
    ghost use Rattle.session_steps.specs.Steps.{bytes_of_frames};
    ghost use Rattle.session_steps.specs.Taken.{is_declared_kind, is_taken, takes_declared, takes_kind};
    ghost use Rattle.session_steps.specs.Talks.{heard, new_talk};
    ghost use Rattle.v2_sessions.specs.Frames.{MeetsBy, frame_value};
    ghost use Rattle.v2_sessions.specs.Following.{FollowsReply, RollsAsAsked};
    ghost use Rattle.v2_sessions.specs.Meanings.{IsMeaningOf};
    ghost use Rattle.v2_sessions.specs.Parts.{IsPart};
    ghost use Rattle.v2_sessions.specs.declared.meaning.Meaning.TheVariants as meanings;
    ghost use Rattle.session_steps.specs.Setups as setups;

    /// A session before its first frame, which is held so.
    pub fn new(alloc: Global, manner: Manner) -> Session
        ensures { result ≡ new_talk manner.role manner.rolling manner.declares }
    {
        Session {
            role: manner.role,
            rolling: manner.rolling,
            declares: manner.declares,
            flags: None,
            number: SessionNumber::of(0),
            about: About::Nothing,
            declarer: Declarer::new(alloc),
            foreseeing: Foreseeing::new(alloc),
        }
    }

    /// What it makes of a frame.
    pub fn on_frame(&mut self, alloc: Global, frame: &Frame<'_>) -> Result<Step, AllocError>
        ensures ok { IfOk result (λ step. Meets self.old (frame_value frame.now) step self.new) }
        ensures err { OnErr result (self.new ≡ self.old) }
    {
        let (kind, payload) = (frame.kind, frame.payload);
        if !self.takes(frame) {
            Ok(Step::Ignore)
        } else if is_declared_kind(kind) {
            self.on_declaration(alloc, frame)
        } else if is_feeds_kind(kind) {
            self.on_template(alloc, kind, payload)
        } else if kind == kinds::ALLOCATE_MINING_JOB_TOKEN {
            self.on_declare(alloc, kind, payload)
        } else {
            self.on_mining(alloc, kind, payload)
        }
    }

    /// Looks at the bytes that stand behind the frame that came last: the shares with which they go
    /// on may be worked out now, side by side. Nothing is asked or answered otherwise for it, also
    /// where there is no memory.
    pub fn look_ahead(&mut self, alloc: Global, bytes: &[u8]) -> Result<(), AllocError>
        ensures { self.new ≡ self.old }
    {
        self.foreseeing.look_ahead(alloc, bytes)
    }

    /// Hears the reply to its last request. Where that is what a share's header is computed from,
    /// the share is to be booked; else the reply is given back, to be answered.
    pub fn follow(&mut self, reply: Reply) -> Result<Request, Reply>
        requires { RollsAsAsked self.old.about reply }
        ensures heard { self.new ≡ heard self.old reply }
        ensures booking { FollowsReply self.old.about reply result }
    {
        self.hear(&reply);
        match self.about {
            About::Share(sub) => self.booking(sub, reply),
            _ => Err(reply),
        }
    }

    /// Learns its number, as it enters, and the tokens that it is granted.
    fn hear(&mut self, reply: &Reply)
        ensures { self.new ≡ heard self.old reply.now }
    {
        if let Reply::Entered(number) = reply {
            self.number = SessionNumber::of(number.value());
        }
        self.declarer.hear(reply);
    }

    /// Appends the frame with the number `part` of a reply's answer, or of its news, and counts it,
    /// or says that there is none. Lack of memory changes nothing.
    pub fn on_part(
        &self,
        reply: &Reply,
        part: &mut u64,
        out: &mut Vec<u8>,
    ) -> Result<bool, AllocError>
        ensures ok { IfOk result (λ more. IsPart more (answers.answer_frames self.now reply.now)
            part.old part.new out.old.items out.new.items) }
        ensures err { OnErr result ((part.new ≡ part.old) × (out.new.items ≡ out.old.items)) }
    {
        if let Reply::News(_, notes) = reply {
            return put_note(notes, part, out);
        }
        if *part > 0 || !put_answer(self.role, self.number, &self.about, reply, out)? {
            return Ok(false);
        }
        *part = 1;
        Ok(true)
    }

    /// Appends what is sent before the first frame.
    pub fn greeting(&self, out: &mut Vec<u8>) -> Result<(), AllocError>
        ensures ok { OnOk result (out.new.items
            ≡ out.old.items ++ bytes_of_frames (answers.greeting self.now.role)) }
        ensures err { OnErr result (out.new.items ≡ out.old.items) }
    {
        match self.role {
            Role::Feed => put_greeting(out),
            Role::Miner | Role::Solo => Ok(()),
        }
    }

    /// Sets it up without flags, as a setup without any would, for a miner that sends none. Answers
    /// what enters it.
    pub fn set_up_plain(&mut self) -> Request
        ensures request { result ≡ request.Enter self.old.role 0 }
        ensures session { self.new ≡ record self.old { flags = Some 0; about = topic.Nothing } }
    {
        self.enter(0)
    }

    /// Whether its setup is done.
    pub fn is_set_up(&self) -> bool
        ensures { result ≡ is_some self.now.flags }
    {
        self.flags.is_some()
    }

    /// What its last request was about.
    pub fn about(&self) -> About
        ensures { result ≡ self.now.about }
    {
        self.about
    }

    /// Makes a request that no frame asked for, about this.
    pub fn ask_about(&mut self, about: About)
        ensures { self.new ≡ record self.old { about = about } }
    {
        self.about = about;
    }

    fn takes(&self, frame: &Frame<'_>) -> bool
        ensures { result ≡ is_taken self.now (frame_value frame.now) }
    {
        frame.ext % 0x8000 == 0
            && (takes_kind(self.role, self.flags, frame.kind) || self.takes_declared(frame.kind))
    }

    fn takes_declared(&self, kind: u8) -> bool
        ensures { result ≡ takes_declared self.now kind }
    {
        is_declared_kind(kind) && self.declares && brings_own_jobs(self.role, self.flags)
    }

    /// What it makes of a taken frame of a declaration.
    fn on_declaration(&mut self, alloc: Global, frame: &Frame<'_>) -> Result<Step, AllocError>
        requires taken { is_taken self.old (frame_value frame.now) ≡ true }
        requires kind { is_declared_kind frame.now.kind ≡ true }
        ensures ok { IfOk result (λ step. Meets self.old (frame_value frame.now) step self.new) }
        ensures err { OnErr result (self.new ≡ self.old) }
    {
        match self.declarer.on_frame(alloc, frame)? {
            Declared::Say(bytes) => Ok(Step::Say(bytes)),
            Declared::Ask(request) => {
                self.about = self.about_asked();
                Ok(Step::Ask(request))
            }
            Declared::BadMessage(kind) => Ok(Step::BadMessage(kind)),
        }
    }

    /// What a Grant that was asked for a declaration answers.
    fn about_asked(&self) -> About
        ensures { result ≡ about_asked self.now.declarations.asked }
    {
        match self.declarer.declared() {
            Some(request_id) => About::Declared(request_id),
            None => About::Nothing,
        }
    }

    fn on_mining(&mut self, alloc: Global, kind: u8, payload: &[u8]) -> Result<Step, AllocError>
        requires { takes_kind self.old.role self.old.flags kind ≡ true }
        ensures ok { IfOk result (λ step.
            MeetsBy mining_table self.old kind payload.now step self.new) }
        ensures err { OnErr result (self.new ≡ self.old) }
    {
        let read = mining_msgs::read(kind, payload);
        match &read {
            Err(_) => Ok(Step::BadMessage(kind)),
            Ok(message) => self.lead(alloc, mining_meaning(alloc, message)?),
        }
    }

    fn on_template(&mut self, alloc: Global, kind: u8, payload: &[u8]) -> Result<Step, AllocError>
        requires { takes_kind self.old.role self.old.flags kind ≡ true }
        ensures ok { IfOk result (λ step.
            MeetsBy template_table self.old kind payload.now step self.new) }
        ensures err { OnErr result (self.new ≡ self.old) }
    {
        let read = template_msgs::read(kind, payload);
        match &read {
            Err(_) => Ok(Step::BadMessage(kind)),
            Ok(message) => self.lead(alloc, template_meaning(alloc, message)?),
        }
    }

    fn on_declare(&mut self, alloc: Global, kind: u8, payload: &[u8]) -> Result<Step, AllocError>
        requires { takes_kind self.old.role self.old.flags kind ≡ true }
        ensures ok { IfOk result (λ step.
            MeetsBy declare_table self.old kind payload.now step self.new) }
        ensures err { OnErr result (self.new ≡ self.old) }
    {
        let read = declare_msgs::read(kind, payload);
        match &read {
            Err(_) => Ok(Step::BadMessage(kind)),
            Ok(message) => self.lead(alloc, declare_meaning(alloc, message)?),
        }
    }

    /// What a taken message leads to.
    fn lead(&mut self, alloc: Global, meaning: Meaning) -> Result<Step, AllocError>
        ensures ok { IfOk result (λ step. (message : Message) → IsMeaningOf message meaning
            → takes_kind self.old.role self.old.flags message.kind ≡ true
            → LeadsBy self.old.flags self.old message step self.new) }
        ensures err { OnErr result (self.new ≡ self.old) }
    {
        match meaning {
            Meaning::Setup {
                protocol,
                min_version,
                max_version,
                flags,
            } => match self.role {
                Role::Feed => Ok(Step::BadSetup),
                Role::Miner | Role::Solo => {
                    Ok(self.set_up(protocol, min_version, max_version, flags))
                }
            },
            Meaning::SetUp {
                used_version: 2,
                flags,
            } => match self.role {
                Role::Feed => Ok(self.accept(flags)),
                Role::Miner | Role::Solo => Ok(Step::BadSetup),
            },
            Meaning::SetUp { .. } | Meaning::Other => Ok(Step::BadSetup),
            Meaning::Work(request, about) => self.ask(alloc, request, about),
        }
    }

    /// The first of the reasons to refuse a miner's setup, or none.
    fn set_up(&mut self, protocol: u8, min_version: u16, max_version: u16, flags: u32) -> Step
        ensures { SetsUp (setup_by self.old.rolling protocol min_version max_version flags)
            self.old result self.new }
    {
        let refused = self.refused_flags(flags);
        if protocol != 0 {
            Step::RefuseSetup(SetupCode::Protocol, 0)
        } else if !(min_version <= 2 && 2 <= max_version) {
            Step::RefuseSetup(SetupCode::Version, 0)
        } else if refused != 0 {
            Step::RefuseSetup(SetupCode::Flags, refused)
        } else {
            self.accept(flags)
        }
    }

    fn refused_flags(&self, flags: u32) -> u32
        ensures { result ≡ refused_flags self.now.rolling flags }
    {
        flags
            & if self.rolling {
                ROLLING_REFUSED
            } else {
                FIXED_REFUSED
            }
    }

    fn accept(&mut self, flags: u32) -> Step
        ensures { SetsUp (setups.Accepted flags) self.old result self.new }
    {
        Step::Ask(self.enter(flags))
    }

    /// Sets it up with these flags, and asks to enter.
    fn enter(&mut self, flags: u32) -> Request
        ensures request { result ≡ request.Enter self.old.role flags }
        ensures session { self.new ≡ record self.old { flags = Some flags; about = topic.Nothing } }
    {
        self.flags = Some(flags);
        self.about = About::Nothing;
        Request::Enter(self.role, flags)
    }

    /// Asks, once it is set up.
    fn ask(&mut self, alloc: Global, request: Request, about: About) -> Result<Step, AllocError>
        ensures ok { IfOk result (λ step. (message : Message)
            → IsMeaningOf message (meanings.Work request about)
            → LeadsBy self.old.flags self.old message step self.new) }
        ensures err { OnErr result (self.new ≡ self.old) }
    {
        if self.flags.is_none() {
            return Ok(Step::BadSetup);
        }
        self.note(alloc, &request)?;
        self.about = about;
        Ok(Step::Ask(request))
    }

    fn note_token(&mut self, alloc: Global, identity: &str) -> Result<(), AllocError>
        requires { length identity.now ≤ 255 }
        ensures ok { OnOk result (self.new ≡ record self.old {
          declarations = if self.old.declares
              then asking_token self.old.declarations identity.now
              else self.old.declarations;
        }) }
        ensures err { OnErr result (self.new ≡ self.old) }
    {
        if self.declares {
            self.declarer.ask_token(alloc, identity)
        } else {
            Ok(())
        }
    }

    /// Notes a token that it asks for, where it takes declarations.
    fn note(&mut self, alloc: Global, request: &Request) -> Result<(), AllocError>
        ensures ok { OnOk result (self.new ≡ record self.old {
          declarations = noting self.old.declares self.old.declarations request.now;
        }) }
        ensures err { OnErr result (self.new ≡ self.old) }
    {
        match request {
            Request::Grant(identity, _) => self.note_token(alloc, identity.text()),
            _ => Ok(()),
        }
    }

    /// A share is booked with its brief, where that is the reply.
    fn booking(&mut self, sub: Submission, reply: Reply) -> Result<Request, Reply>
        requires { RollsAsAsked (topic.Share sub) reply }
        ensures same { self.new ≡ self.old }
        ensures booking { FollowsReply (topic.Share sub) reply result }
    {
        match reply {
            Reply::Brief(brief) => Ok(Request::Commit(self.foreseeing.check(brief, sub))),
            reply => {
                self.foreseeing.forget();
                Err(reply)
            }
        }
    }
}
