//! What is hashed, made of numbers.

ghost use Rattle.std.specs.Prelude.{◌≡◌, ◌+◌, ◌^◌, ◌<◌, ◌≤◌};
ghost use Rattle.bench.specs.Numbered as numbered;

/// The message for a number: its eight bytes, low byte first, and zeros.
pub fn message_of<const N: usize>(number: u64) -> [u8; N]
    requires { 8 ≤ N }
    ensures { result ≡ numbered.message_of N number }
{
    let mut message = [0; N];
    message[..8].copy_from_slice(&number.to_le_bytes());
    message
}

/// The messages for a number and the three behind it.
pub fn four_from<const N: usize>(number: u64) -> [[u8; N]; 4]
    requires long { 8 ≤ N }
    requires within { number + 3 < 2 ^ 64 }
    ensures { result ≡ numbered.four_from N number }
{
    [
        message_of(number),
        message_of(number + 1),
        message_of(number + 2),
        message_of(number + 3),
    ]
}
