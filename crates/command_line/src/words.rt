//! The words of a command line, and the forms that they may have.

ghost use Rattle.std.specs.Prelude.{◌≡◌, ◌↔◌, ◌<◌, ◌≤◌, ◌^◌, ℕ, List, string_bytes, length, IsTrue};
ghost use Rattle.std.specs.Prelude.{IfSome, IfNone, Ok, [], ◌∷◌, codes};
ghost use Rattle.hex.specs.Hex.{decode_sized};
ghost use Rattle.pool_history.specs.Accounts.{account_of};
ghost use Rattle.command_line.specs.Numbers.{IsNumber};
ghost use Rattle.stream_programs.specs.declared.judge.Job.{Job as Work};
ghost use Rattle.command_line.specs.declared.words.OnDisk.{OnDisk as Durable};
ghost use Rattle.command_line.specs.Forms.{IsAudit, IsDeclare, IsDurable, IsDurableAudit, IsDurableServe, IsDurableSolo, IsFeed, IsForm, IsFrames, IsJob, IsLoad, IsMigrate, IsMine, IsProxy, IsServe, IsSolo, IsSoloFixed};

use hex::FromHex;
use std::marker::Model;
use stream_programs::Job;

/// A word of the command line: a text of any length.
#[derive(Drop)]
pub struct Word {
    text: String,
}

impl Model for Word {
    ghost use Rattle.std.specs.Prelude.{ℕ, List, string_bytes};

    ghost Value = { List ℕ };

    ghost view = { λ w. string_bytes w.text };
}

impl Word {
    pub fn of(text: String) -> Word
        ensures { result ≡ string_bytes text }
    {
        Word { text }
    }

    pub fn text(&self) -> &str
        ensures { result.now ≡ self.now }
    {
        self.text.as_str()
    }

    fn says(&self, text: &str) -> bool
        ensures { IsTrue result ↔ (self.now ≡ text.now) }
    {
        self.text.as_str() == text
    }
}

/// A command over a disk.
#[derive(Clone, Copy)]
pub enum OnDisk {
    /// `durable solo SETTINGS LEDGER`
    Solo,
    /// `durable serve SETTINGS LEDGER`
    Serve,
    /// `durable audit LEDGER`
    Audit,
}

/// What the words ask for.
#[derive(Drop)]
pub enum Form {
    /// `solo fixed CLASS JOBHEX`
    SoloFixed { class: u8, job: Job },
    /// `frames`
    Frames,
    /// `solo SETTINGS LEDGER`
    Solo,
    /// `declare SETTINGS LEDGER`
    Declare,
    /// `serve SETTINGS LEDGER`
    Serve,
    /// `audit LEDGER`
    Audit,
    /// `migrate OLD NEW`
    Migrate,
    /// `load NUMBER`
    Load { number: u64 },
    /// `mine ADDRESS USER CLASS COUNT`
    Mine { class: u8, count: u32 },
    /// `feed SCRIPT ADDRESS`
    Feed,
    /// `proxy UPSTREAM USER ADDRESS COUNT`
    Proxy { count: u32 },
    /// One of those over a disk.
    Durable { command: OnDisk },
}

/// The form that the words have, if they have one.
pub fn form_of(words: &[Word]) -> Option<Form>
    ensures found { IfSome result (IsForm words.now) }
    ensures none { IfNone result ((form : _) → IsForm words.now form → ⊥) }
{
    if is_frames(words) {
        return Some(Form::Frames);
    }
    if solo_names(words).is_some() {
        return Some(Form::Solo);
    }
    if declare_names(words).is_some() {
        return Some(Form::Declare);
    }
    if serve_names(words).is_some() {
        return Some(Form::Serve);
    }
    if audit_name(words).is_some() {
        return Some(Form::Audit);
    }
    if migrate_names(words).is_some() {
        return Some(Form::Migrate);
    }
    if let Some(number) = load_number(words) {
        return Some(Form::Load { number });
    }
    if feed_names(words).is_some() {
        return Some(Form::Feed);
    }
    if let Some((class, count)) = mine_numbers(words) {
        return Some(Form::Mine { class, count });
    }
    if let Some(count) = proxy_count(words) {
        return Some(Form::Proxy { count });
    }
    if let Some(command) = durable_command(words) {
        return Some(Form::Durable { command });
    }
    solo_fixed_form(words)
}

/// The command over a disk that the words ask for, if they ask for one.
fn durable_command(words: &[Word]) -> Option<OnDisk>
    ensures found { IfSome result (IsDurable words.now) }
    ensures none { IfNone result ((command : Durable) → IsDurable words.now command → ⊥) }
{
    if durable_solo_names(words).is_some() {
        return Some(OnDisk::Solo);
    }
    if durable_serve_names(words).is_some() {
        return Some(OnDisk::Serve);
    }
    if durable_audit_name(words).is_some() {
        return Some(OnDisk::Audit);
    }
    None
}

/// The words behind `durable solo`, where there are two: the names of the settings file and of the
/// ledger's disk.
pub fn durable_solo_names(words: &[Word]) -> Option<(&Word, &Word)>
    ensures found { IfSome result (λ names. words.now
        ≡ codes "durable" ∷ codes "solo" ∷ names.0.now ∷ names.1.now ∷ []) }
    ensures none { IfNone result (IsDurableSolo words.now → ⊥) }
{
    names_behind_both(words, "solo")
}

/// The words behind `durable serve`, where there are two: the names of the settings file and of the
/// ledger's disk.
pub fn durable_serve_names(words: &[Word]) -> Option<(&Word, &Word)>
    ensures found { IfSome result (λ names. words.now
        ≡ codes "durable" ∷ codes "serve" ∷ names.0.now ∷ names.1.now ∷ []) }
    ensures none { IfNone result (IsDurableServe words.now → ⊥) }
{
    names_behind_both(words, "serve")
}

/// The two words behind `durable` and this one, where there are just two.
fn names_behind_both<'a>(words: &'a [Word], command: &str) -> Option<(&'a Word, &'a Word)>
    ensures found { IfSome result (λ names. words.now
        ≡ codes "durable" ∷ command.now ∷ names.0.now ∷ names.1.now ∷ []) }
    ensures none { IfNone result ((one other : List ℕ)
        → words.now ≡ codes "durable" ∷ command.now ∷ one ∷ other ∷ [] → ⊥) }
{
    match words {
        [durable, word, one, other] if durable.says("durable") && word.says(command) => {
            Some((one, other))
        }
        _ => None,
    }
}

/// The word behind `durable audit`, where there is one: the name of the ledger's disk.
pub fn durable_audit_name(words: &[Word]) -> Option<&Word>
    ensures found { IfSome result (λ name. words.now
        ≡ codes "durable" ∷ codes "audit" ∷ name.now ∷ []) }
    ensures none { IfNone result (IsDurableAudit words.now → ⊥) }
{
    match words {
        [durable, audit, ledger] if durable.says("durable") && audit.says("audit") => Some(ledger),
        _ => None,
    }
}

/// Whether the words are `frames`.
fn is_frames(words: &[Word]) -> bool
    ensures { IsTrue result ↔ IsFrames words.now }
{
    match words {
        [word] => word.says("frames"),
        _ => false,
    }
}

/// The words behind `solo`, where there are two: the names of the settings file and of the ledger.
pub fn solo_names(words: &[Word]) -> Option<(&Word, &Word)>
    ensures found { IfSome result (λ names. words.now
        ≡ codes "solo" ∷ names.0.now ∷ names.1.now ∷ []) }
    ensures none { IfNone result (IsSolo words.now → ⊥) }
{
    names_behind(words, "solo")
}

/// The words behind `declare`, where there are two: the names of the settings file and of the ledger.
pub fn declare_names(words: &[Word]) -> Option<(&Word, &Word)>
    ensures found { IfSome result (λ names. words.now
        ≡ codes "declare" ∷ names.0.now ∷ names.1.now ∷ []) }
    ensures none { IfNone result (IsDeclare words.now → ⊥) }
{
    names_behind(words, "declare")
}

/// The words behind `serve`, where there are two: the names of the settings file and of the ledger.
pub fn serve_names(words: &[Word]) -> Option<(&Word, &Word)>
    ensures found { IfSome result (λ names. words.now
        ≡ codes "serve" ∷ names.0.now ∷ names.1.now ∷ []) }
    ensures none { IfNone result (IsServe words.now → ⊥) }
{
    names_behind(words, "serve")
}

/// The words behind `migrate`, where there are two: the names of the old and the new ledger.
pub fn migrate_names(words: &[Word]) -> Option<(&Word, &Word)>
    ensures found { IfSome result (λ names. words.now
        ≡ codes "migrate" ∷ names.0.now ∷ names.1.now ∷ []) }
    ensures none { IfNone result (IsMigrate words.now → ⊥) }
{
    names_behind(words, "migrate")
}

/// The words behind `feed`, where there are two: the name of the script, and the address.
pub fn feed_names(words: &[Word]) -> Option<(&Word, &Word)>
    ensures found { IfSome result (λ names. words.now
        ≡ codes "feed" ∷ names.0.now ∷ names.1.now ∷ []) }
    ensures none { IfNone result (IsFeed words.now → ⊥) }
{
    names_behind(words, "feed")
}

/// The two words behind this one, where there are just two.
fn names_behind<'a>(words: &'a [Word], command: &str) -> Option<(&'a Word, &'a Word)>
    ensures found { IfSome result (λ names. words.now
        ≡ command.now ∷ names.0.now ∷ names.1.now ∷ []) }
    ensures none { IfNone result ((one other : List ℕ)
        → words.now ≡ command.now ∷ one ∷ other ∷ [] → ⊥) }
{
    match words {
        [word, one, other] if word.says(command) => Some((one, other)),
        _ => None,
    }
}

/// The word behind `audit`, where there is one: the name of the ledger.
pub fn audit_name(words: &[Word]) -> Option<&Word>
    ensures found { IfSome result (λ name. words.now ≡ codes "audit" ∷ name.now ∷ []) }
    ensures none { IfNone result (IsAudit words.now → ⊥) }
{
    match words {
        [audit, ledger] if audit.says("audit") => Some(ledger),
        _ => None,
    }
}

/// The number behind `load`, where there is one.
fn load_number(words: &[Word]) -> Option<u64>
    ensures found { IfSome result (IsLoad words.now) }
    ensures none { IfNone result ((n : ℕ) → IsLoad words.now n → ⊥) }
{
    match words {
        [load, digits] if load.says("load") => number(digits.text()),
        _ => None,
    }
}

/// The class and the count of `mine ADDRESS USER CLASS COUNT`, if the words are of that form.
fn mine_numbers(words: &[Word]) -> Option<(u8, u32)>
    ensures found { IfSome result (λ numbers. IsMine words.now numbers.0 numbers.1) }
    ensures none { IfNone result ((class count : ℕ) → IsMine words.now class count → ⊥) }
{
    let [mine, _, user, class, count] = words else {
        return None;
    };
    if !mine.says("mine") || !is_user(user) {
        return None;
    }
    let class = number_within(class, 0, 24)?;
    let count = number_within(count, 1, 1_000_000)?;
    Some((class as u8, count as u32))
}

/// Whether a word can be a miner's user: 1 to 255 bytes.
fn is_user(word: &Word) -> bool
    ensures { IsTrue result ↔ ((0 < length word.now) × (length word.now ≤ 255)) }
{
    let text = word.text();
    !text.is_empty() && text.len() <= 255
}

/// The count of `proxy UPSTREAM USER ADDRESS COUNT`, if the words are of that form.
fn proxy_count(words: &[Word]) -> Option<u32>
    ensures found { IfSome result (IsProxy words.now) }
    ensures none { IfNone result ((count : ℕ) → IsProxy words.now count → ⊥) }
{
    let [proxy, _, user, _, count] = words else {
        return None;
    };
    if !proxy.says("proxy") || !has_account(user) {
        return None;
    }
    let count = number_within(count, 1, 64)?;
    Some(count as u32)
}

/// Whether a word can be a proxy's user: at most 255 bytes, the first of which begins an account.
fn has_account(word: &Word) -> bool
    ensures { IsTrue result ↔ ((0 < length (account_of word.now)) × (length word.now ≤ 255)) }
{
    let bytes = word.text().as_bytes();
    match bytes.first() {
        Some(byte) => *byte != b'.' && bytes.len() <= 255,
        None => false,
    }
}

/// A number from the one to the other.
fn number_within(word: &Word, least: u64, most: u64) -> Option<u64>
    ensures found { IfSome result (λ n. IsNumber word.now n × (least ≤ n) × (n ≤ most)) }
    ensures none { IfNone result ((n : ℕ) → IsNumber word.now n → least ≤ n → n ≤ most → ⊥) }
{
    number(word.text()).filter(|n| least <= *n && *n <= most)
}

/// The form `solo fixed CLASS JOBHEX`, if the words have it.
fn solo_fixed_form(words: &[Word]) -> Option<Form>
    ensures found { IfSome result (IsForm words.now) }
    ensures none { IfNone result ((class : ℕ) (job : Work) → IsSoloFixed words.now class job → ⊥) }
{
    let [solo, fixed, class, job] = words else {
        return None;
    };
    if !solo.says("solo") || !fixed.says("fixed") {
        return None;
    }
    let class = number(class.text()).filter(|class| *class <= 60)?;
    let job = <[u8; 68]>::from_hex(job.text()).ok()?;
    Some(Form::SoloFixed {
        class: class as u8,
        job: job_of(&job),
    })
}

/// A number: `0`, or digits without a leading zero.
fn number(text: &str) -> Option<u64>
    ensures found { IfSome result (IsNumber text.now) }
    ensures none { IfNone result ((n : ℕ) → n < 2 ^ 64 → IsNumber text.now n → ⊥) }
{
    let first = *text.as_bytes().first()?;
    if first == b'+' || (first == b'0' && text.len() > 1) {
        return None;
    }
    text.parse().ok()
}

/// The job whose previous hash, merkle root and nbits these are.
fn job_of(bytes: &[u8]) -> Job
    requires { length bytes.now ≡ 68 }
    ensures { IsJob bytes.now result }
{
    Job {
        prev_hash: hash_of(&bytes[..32]),
        root: hash_of(&bytes[32..64]),
        nbits: u32::from_le_bytes([bytes[64], bytes[65], bytes[66], bytes[67]]),
    }
}

fn hash_of(bytes: &[u8]) -> [u8; 32]
    requires { length bytes.now ≡ 32 }
    ensures { result ≡ bytes.now }
{
    let mut hash = [0; 32];
    hash.copy_from_slice(bytes);
    hash
}
