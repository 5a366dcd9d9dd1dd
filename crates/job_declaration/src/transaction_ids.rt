//! The ids of transactions under their witness ids.

use crate::TxIds;
use indexmap::IndexMap;
use std::alloc::{AllocError, Global};
use std::marker::Model;

/// Which id stands under which witness id. Contracts see the ids.
#[derive(Drop)]
pub(crate) struct Ids {
    /// Fewer than 2^16.
    map: IndexMap<[u8; 32], [u8; 32]>,
}

impl Model for Ids {
    ghost use Rattle.std.specs.Prelude.{◌^◌, ◌<◌, length};
    ghost use Rattle.job_declaration.specs.Filling.{Known};

    ghost Value = { Known };

    ghost view = { λ ids. ids.map.entries };

    ghost invariant = { λ ids. length ids.map.entries < 2 ^ 16 };
}

impl Ids {
    ghost use Rattle.std.specs.Prelude.{◌≡◌, ◌^◌, ◌<◌, [], IfOk, length};
    ghost use Rattle.job_declaration.specs.Filling.{id_under, known_of};

    /// None.
    pub(crate) fn new(alloc: Global) -> Ids
        ensures { result ≡ [] }
    {
        Ids {
            map: IndexMap::new(alloc),
        }
    }

    /// Those of transactions.
    pub(crate) fn of(alloc: Global, transactions: &[TxIds]) -> Result<Ids, AllocError>
        requires { length transactions.now < 2 ^ 16 }
        ensures { IfOk result (λ ids. ids ≡ known_of transactions.now) }
    {
        let mut map = IndexMap::new(alloc);
        map.reserve(transactions.len())?;
        for ids in transactions {
            map.insert(ids.wtxid, ids.txid)?;
        }
        Ok(Ids { map })
    }

    /// That they are fewer than 2^16.
    pub(crate) fn are_few(&self)
        ensures { length self.now < 2 ^ 16 }
    {
        let _map = &self.map;
    }

    /// The id under a witness id.
    pub(crate) fn get(&self, wtxid: &[u8; 32]) -> Option<[u8; 32]>
        ensures { result ≡ id_under self.now wtxid.now }
    {
        self.map.get(wtxid).copied()
    }
}
