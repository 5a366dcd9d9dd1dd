//! The pool's fee.

ghost use Rattle.std.specs.Prelude.{◌≡◌, ◌<◌, ◌≤◌, ◌^◌};
ghost use Rattle.pool_history.specs.Settling as settling;

/// The pool's fee of a reward in satoshis, in basis points, rounded down.
pub fn fee_of(reward: u64, basis_points: u16) -> u64
    requires in_range { reward < 2 ^ 40 }
    requires part { basis_points ≤ 10000 }
    ensures value { result ≡ settling.fee_of reward basis_points }
    ensures within { result ≤ reward }
{
    reward * u64::from(basis_points) / 10_000
}
