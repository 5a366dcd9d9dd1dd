//! The header that a submission stands for.

ghost use Rattle.std.specs.Prelude.{◌≡◌, ◌++◌, length};
ghost use Rattle.block_header.specs.Hash as hash;
ghost use Rattle.pool_history.specs.declared.events.Kind.TheVariants.{Standard};
ghost use Rattle.pool_history.specs.Headers.{extranonce_prefix, rolled_length};
ghost use Rattle.share_headers.specs.Submitted.{submitted_header};

use crate::parts::Parts;
use block_header::{Header, dsha, root_of};
use pool_history::{Kind, Lead, Submission};

/// The 80 bytes of the header that a submission stands for by these parts, and their double hash.
/// It takes no memory.
pub fn header_of(parts: &Parts<'_>, sub: &Submission) -> ([u8; 80], [u8; 32])
    requires { sub.now.extranonce_len ≡ rolled_length parts.now.kind parts.now.lead }
    ensures header { result.0 ≡ submitted_header parts.now sub.now }
    ensures hash { result.1 ≡ hash.dsha result.0 }
{
    let sent = &sub.extranonce[..usize::from(sub.extranonce_len)];
    let extranonce = whole_extranonce(parts.kind, &parts.lead, sent);
    let txid = parts.root.coinbase.txid_with(&extranonce);
    let header = Header {
        version: sub.version,
        prev_hash: parts.prev_hash,
        root: root_of(&txid, parts.root.path.items()),
        ntime: sub.ntime,
        nbits: parts.nbits,
        nonce: sub.nonce,
    }
    .bytes();
    (header, dsha(&header))
}

/// How many bytes of an extranonce a channel's miner rolls, and a share has to send.
pub fn rolled_length(kind: Kind, lead: &Lead) -> u8
    ensures { result ≡ rolled_length kind lead.now }
{
    match kind {
        Kind::Standard => 0,
        Kind::Extended | Kind::V1 => 12 - lead.len(),
    }
}

/// The twelve bytes between the two parts of a coinbase: the channel's prefix, and then those that
/// were sent, which are none on a standard channel.
pub fn whole_extranonce(kind: Kind, lead: &Lead, sent: &[u8]) -> [u8; 12]
    requires standard { kind ≡ Standard → length lead.now ≡ 4 }
    requires rolled { length sent.now ≡ rolled_length kind lead.now }
    ensures { result ≡ extranonce_prefix kind lead.now ++ sent.now }
{
    let length = usize::from(lead.len());
    let mut extranonce = [0; 12];
    extranonce[..length].copy_from_slice(lead.bytes());
    if kind != Kind::Standard {
        extranonce[length..].copy_from_slice(sent);
    }
    extranonce
}
