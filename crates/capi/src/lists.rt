// The check of a rule list, and the library's version, for callers in C and Rust.
ghost use Rattle.std.specs.Prelude.{◌≡◌};
ghost use Rattle.rules.specs.Check.{check_of};
ghost use Rattle.codes.specs.Codes.{slot_list};
ghost use Rattle.codes.specs.Codes.{check_code};
ghost use Rattle.capi.specs.ListCall.{version};

use codes::sizes::SLOTS;
use codes::{code, list_of};

// Version 0.8.0: ten thousand times the first number, a hundred times the second, and the third.
pub const VERSION: u32 = 800;

// Whether a rule list is accepted: `RuleList::check`. Answers 0, or the refusal.
pub fn catrovindy_check(slots: &[u32; SLOTS], count: u32) -> u64
    ensures { result ≡ check_code (check_of (slot_list slots.now count)) }
{
    match list_of(*slots, count).check() {
        Ok(()) => 0,
        Err(r) => code(r),
    }
}

// The library's version as one number.
pub fn catrovindy_version() -> u32
    ensures { result ≡ version }
{
    VERSION
}
