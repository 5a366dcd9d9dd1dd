//! The quotients that accounts are paid.

ghost use Rattle.std.specs.Prelude.{◌≡◌, ◌<◌, ◌≤◌, ◌*◌, ◌/◌, ◌^◌};

/// What is paid for a weight among all weights, rounded down.
pub fn quotient(paid_out: u64, weight: u128, all: u128) -> u64
    requires amount { paid_out < 2 ^ 40 }
    requires some { 1 ≤ all }
    requires small { all < 2 ^ 84 }
    requires part { weight ≤ all }
    ensures value { result ≡ paid_out * weight / all }
    ensures within { result ≤ paid_out }
{
    (u128::from(paid_out) * weight / all) as u64
}
