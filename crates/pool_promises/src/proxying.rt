//! The laws, each a function without a body.

ghost use Rattle.pool_promises.specs.Proxying.{ProxiesKeepLaws};
ghost use Rattle.pool_promises.specs.Puts.{MinersArePutOutput, UpstreamsArePutOutput};
ghost use Rattle.pool_promises.specs.Setups.{BadSetupsAreExact};

/// What the upstream's link was put is what the proxy had written upstream when it was polled last, or, where
/// a put failed or found no memory, a front of that.
pub fn upstreams_are_put_output()
    ensures { UpstreamsArePutOutput }
{}

/// What a miner's link was put is what the proxy had written to it since it joined, when it was polled last,
/// or, where a put failed or found no memory, a front of that.
pub fn miners_are_put_output()
    ensures { MinersArePutOutput }
{}

/// The events of a proxy that began with a Start and was run over links are that Start and inputs,
/// those of who called at a door under the number of its worker; the laws of `proxy_rules` hold for
/// them.
pub fn proxies_keep_laws()
    ensures { ProxiesKeepLaws }
{}

/// A proxy ends its upstream by BadSetup exactly where the messages that it was told of it are such.
pub fn bad_setups_are_exact()
    ensures { BadSetupsAreExact }
{}
