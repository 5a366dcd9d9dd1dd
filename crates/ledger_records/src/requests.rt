//! That each request which a program holds is well formed: what the types of its fields say, told
//! to contracts.

ghost use Rattle.std.specs.Str.{IsUtf8};
ghost use Rattle.ledger_records.specs.Requests.{IsIdentity, IsOpenAsk, IsPath, IsSubmission, IsWellFormedRequest};

use crate::fields::{
    custom_fits, hash_fits, hashes_fit, template_fits, text_fits, text_is_utf8, tip_fits, u8_fits,
    u16_fits, u32_fits, u64_fits,
};
use pool_history::{OpenAsk, Request, Submission};
use sv2_types::{Hashes, Str255};

/// Each field of a request is of its type. So what a program's request adds to a legal history with
/// a ledger can be kept.
pub fn request_fits(request: &Request)
    ensures { IsWellFormedRequest request.now }
{
    match request {
        Request::Enter(_, flags) => u32_fits(*flags),
        Request::Leave => {}
        Request::Template(template) => template_fits(template),
        Request::Tip(tip) => tip_fits(tip),
        Request::Open(ask) => ask_fits(ask),
        Request::Name(channel, identity) => {
            u32_fits(*channel);
            identity_fits(identity)
        }
        Request::Update(channel, max_target) => {
            u32_fits(*channel);
            hash_fits(max_target)
        }
        Request::Close(channel) => u32_fits(*channel),
        Request::Brief(sub) => submission_fits(sub),
        Request::Commit(checked) => submission_fits(&checked.sub),
        Request::Poll(from) => u64_fits(*from),
        Request::Grant(identity, path) => {
            identity_fits(identity);
            path_fits(path)
        }
        Request::Custom(custom) => custom_fits(custom),
    }
}

fn identity_fits(identity: &Str255)
    ensures { IsIdentity identity.now }
{
    text_fits(identity);
    text_is_utf8(identity)
}

fn ask_fits(ask: &OpenAsk)
    ensures { IsOpenAsk ask.now }
{
    identity_fits(&ask.identity);
    hash_fits(&ask.max_target);
    u16_fits(ask.min_size)
}

fn submission_fits(sub: &Submission)
    ensures { IsSubmission sub.now }
{
    u32_fits(sub.channel);
    u32_fits(sub.sequence);
    u32_fits(sub.job);
    u32_fits(sub.nonce);
    u32_fits(sub.ntime);
    u32_fits(sub.version);
    u8_fits(sub.extranonce_len)
}

fn path_fits(path: &Option<Hashes>)
    ensures { IsPath path.now }
{
    match path {
        Some(path) => hashes_fit(path),
        None => {}
    }
}
