//! Whose the miners' own jobs are.

ghost use Rattle.std.specs.Prelude.{◌≡◌, ◌+◌, ◌<◌, ◌≤◌, true, false, ◌∷◌, [], ◌++◌, length, nat_lt, vec_capacity, vec_len};
ghost use Rattle.std.specs.List.{list_any};
ghost use Rattle.std.specs.List.Sorted.{IsPartitionPoint, IsPartitionedBy};
ghost use Rattle.history_laws.specs.KeptJobs.{is_others};
ghost use Rattle.template_jobs.specs.Owners.{AreRising, own_job};

/// The number of a miner's own job, and the channel that it is for.
#[derive(Clone, Copy)]
pub(crate) struct Owner {
    pub job: u32,
    pub channel: u32,
}

/// Whether the job with a number is another channel's own. It goes over no more owners than a
/// search by halves does.
pub(crate) fn is_others(owners: &[Owner], channel: u32, number: u32) -> bool
    requires { AreRising owners.now }
    ensures { result ≡ list_any (λ owner. is_others channel number (own_job owner)) owners.now }
{
    match owners.get(place_of_job(owners, number)) {
        Some(owner) => is_owner_other(owner, channel, number),
        None => false,
    }
}

/// The place behind the owners of jobs with lower numbers.
fn place_of_job(owners: &[Owner], number: u32) -> usize
    requires { IsPartitionedBy (λ owner. nat_lt owner.job number) owners.now }
    ensures within { result ≤ length owners.now }
    ensures place { IsPartitionPoint (λ owner. nat_lt owner.job number ≡ true)
        (λ owner. nat_lt owner.job number ≡ false) owners.now result }
{
    owners.partition_point(|owner| owner.job < number)
}

/// Whether this is the owner of the job with a number, and another channel.
fn is_owner_other(owner: &Owner, channel: u32, number: u32) -> bool
    ensures { result ≡ is_others channel number (own_job owner.now) }
{
    owner.job == number && owner.channel != channel
}

/// Puts an owner behind the others, for which there is room.
pub(crate) fn put_owner(owners: &mut Vec<Owner>, owner: Owner)
    requires { vec_len owners.old < vec_capacity owners.old }
    ensures { owners.new.items ≡ owners.old.items ++ owner ∷ [] }
{
    let _done = owners.push(owner);
}
