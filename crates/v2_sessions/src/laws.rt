//! What each end of a session comes from.

ghost use Rattle.v2_sessions.specs.Laws.{BytesOutShowsBytes, EntersComeFirst, GoodInputEndsWell, IdleOutShowsIdles, LedgerFaultShowsCall, LimitsComeLast, OnlyEntersFindItFull, PoolFullShowsReply, ReadFaultShowsTake, WriteFaultShowsPut};

/// A session that ends for its Idle turns had as many in a row at the end of its turns as are
/// waited for.
pub fn idle_out_shows_idles()
    ensures { IdleOutShowsIdles }
{}

/// A session that ends for its bytes took 2^40 of them.
pub fn bytes_out_shows_bytes()
    ensures { BytesOutShowsBytes }
{}

/// No session takes a turn once a limit is reached: what came before the last byte, or before the
/// last Idle turn, reaches none.
pub fn limits_come_last()
    ensures { LimitsComeLast }
{}

/// A session that ends because the pool is full was answered so.
pub fn pool_full_shows_reply()
    ensures { PoolFullShowsReply }
{}

/// A session that ends for its ledger made a call that the keeper failed.
pub fn ledger_fault_shows_call()
    ensures { LedgerFaultShowsCall }
{}

/// A session that ends for a read had a take that failed.
pub fn read_fault_shows_take()
    ensures { ReadFaultShowsTake }
{}

/// A session that ends for a write had a put that failed.
pub fn write_fault_shows_put()
    ensures { WriteFaultShowsPut }
{}

/// A session asks to enter first, and never again.
pub fn enters_come_first()
    ensures { EntersComeFirst }
{}

/// That the pool is full is answered only to who asks to enter, and only where 2^22 sessions have
/// entered.
pub fn only_enters_find_it_full()
    ensures { OnlyEntersFindItFull }
{}

/// Good input that reaches no limit is served to its end, or memory ran out, where nothing else
/// failed and the pool wasn't full.
pub fn good_input_ends_well()
    ensures { GoodInputEndsWell }
{}
