//! Difficulties, and the classes that they stand for.

ghost use Rattle.std.specs.Prelude.{◌≡◌, ◌≤◌, ◌^◌, IfSome, option_map};
ghost use Rattle.serde_json.specs.View.{view};
ghost use Rattle.v1_translate.specs.Difficulty as difficulties;

use block_header::class_of_target;
use serde_json::Value;
use sv2_types::U256;

/// The greatest exponent of a difficulty that is shown.
const MOST_EXPONENT: u16 = 63;

/// The greatest class that a channel may ask for.
const MOST_CLASS: u8 = 60;

/// The greatest difficulty that may be asked for.
const MOST_DIFFICULTY: u64 = 1 << 60;

/// The difficulty of a target, where that of the class `base` is 1.
pub fn difficulty_of(base: u8, target: &U256) -> u64
    ensures { result ≡ difficulties.difficulty_of base target.now }
{
    let class = class_of_target(target);
    let exponent = class.saturating_sub(u16::from(base)).min(MOST_EXPONENT);
    1 << exponent
}

/// The class of a difficulty.
pub fn class_of_difficulty(base: u8, difficulty: u64) -> u8
    requires base { base ≤ 60 }
    requires some { 1 ≤ difficulty }
    requires most { difficulty ≤ 2 ^ 60 }
    ensures { result ≡ difficulties.class_of_difficulty base difficulty }
{
    let class = u32::from(base) + difficulty.ilog2();
    if class < 60 { class as u8 } else { MOST_CLASS }
}

/// The difficulty that a parameter asks for: a whole number from 1 to 2^60.
pub fn asked_difficulty(param: Option<&Value>) -> Option<u64>
    ensures value { result
        ≡ difficulties.asked_difficulty (option_map (λ value. view value.now) param.entry) }
    ensures range { IfSome result (λ number. (1 ≤ number) × (number ≤ 2 ^ 60)) }
{
    let number = param?.as_u64()?;
    if 1 <= number && number <= MOST_DIFFICULTY {
        Some(number)
    } else {
        None
    }
}
