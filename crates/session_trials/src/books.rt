//! One book, which each line asks.

ghost use Rattle.std.specs.Prelude.{[]};
ghost use Rattle.share_ledger.specs.Books.{IsUnused};
ghost use Rattle.share_ledger.specs.Recovery.{IsRecoverable};

use crate::asking::{answer, commit, share, submission, submit, tell, tell_summary};
use crate::steps::numbers;
use pool_history::{Brief, Reply, Request, Rules, Users, are_rules_in_range};
use pool_io::{Keeper, MemKeeper};
use share_ledger::Book;
use std::alloc::{AllocError, Global};
use std::mem;
use sv2_types::Str255;
use trial_cases::{Found, Subject, example_rules, word};

/// A book over a keeper in memory, briefs that were asked for, and how many shares were numbered.
#[derive(Drop)]
pub(crate) struct Books {
    book: Book<MemKeeper>,
    briefs: Vec<Brief>,
    nonce: u32,
}

impl Subject for Books {
    fn begin(alloc: Global) -> Option<Books> {
        kept_book(&mut Found::new(alloc), "rules rolled 3").map(|book| Books {
            book,
            briefs: Vec::new(alloc),
            nonce: 0,
        })
    }

    fn act(&mut self, found: &mut Found, words: &str) {
        match word(words, 0) {
            "rules" => {
                if let Some(book) = kept_book(found, words) {
                    self.book = book;
                    found.say("begun");
                }
            }
            "keep" => keep(found, &mut self.book, &mut self.briefs, words),
            "commit" => {
                if let Some(brief) = self.briefs.pop() {
                    let share = submission(found, words);
                    commit(found, &mut self.book, 0, brief, share);
                }
            }
            "next" => {
                submit(found, &mut self.book, 0, share(1, self.nonce));
                self.nonce = self.nonce.saturating_add(1);
            }
            "length" => found.tell(&self.book.len()),
            "summary" => tell_summary(found, &self.book, ("[", "]")),
            "ledger" => {
                if let Some(fresh) = kept_book(found, "rules rolled 3") {
                    tell_ledger(found, mem::replace(&mut self.book, fresh));
                }
            }
            _ => answer(found, &mut self.book, words),
        }
    }
}

/// A book over a keeper in memory, by words that say whether versions are rolled or fixed, the limit
/// of credits, and the numbers of the keeper's calls that fail.
fn kept_book(found: &mut Found, words: &str) -> Option<Book<MemKeeper>> {
    let limit = found.short_number(word(words, 2));
    let failing = numbers(found, words, 3);
    let rules = rules_of(found, word(words, 1) == "rolled", limit, "");
    begun(found, rules, MemKeeper::new(found.alloc(), failing))
}

/// The worked session's rules, but for the rolling of versions, the limit of credits, and the accounts
/// that are known.
pub(crate) fn rules_of(
    found: &mut Found,
    rolls: bool,
    limit: u32,
    accounts: &str,
) -> Result<Rules, AllocError> {
    let mut known = Vec::new(found.alloc());
    for account in accounts.split_whitespace() {
        if account.len() <= 255
            && let Ok(account) = Str255::of(found.alloc(), account)
        {
            found.done(known.push(account).is_ok());
        }
    }
    let mut rules = example_rules(found.alloc(), rolls, limit.clamp(1, 16_777_215))?;
    rules.users = Users::of(known);
    Ok(rules)
}

/// A book that has begun by these rules, where a pool may have them and there is memory.
pub(crate) fn begun<K: Keeper + Drop>(
    found: &mut Found,
    rules: Result<Rules, AllocError>,
    keeper: K,
) -> Option<Book<K>>
    requires unused { IsUnused (K.seen keeper).records }
    requires recovers { IsRecoverable (K.seen keeper) (K.may_find keeper) [] }
{
    match rules {
        Ok(rules) if are_rules_in_range(&rules) => Book::new(found.alloc(), rules, keeper).ok(),
        _ => {
            found.say("no book ");
            None
        }
    }
}

/// Keeps the brief of a share.
fn keep<K: Keeper>(found: &mut Found, book: &mut Book<K>, briefs: &mut Vec<Brief>, words: &str) {
    match book.act(0, Request::Brief(submission(found, words))) {
        Ok(Reply::Brief(brief)) => {
            found.done(briefs.push(brief).is_ok());
            found.say("kept");
        }
        other => tell(found, &other),
    }
}

/// Tells what a book kept, which ends with it.
fn tell_ledger(found: &mut Found, book: Book<MemKeeper>) {
    let (keeper, _history) = book.into_parts();
    for record in keeper.records() {
        found.hex(record.bytes());
    }
}
