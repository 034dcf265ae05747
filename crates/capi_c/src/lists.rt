// The check of a rule list, and the library's version, exported.
ghost use Rattle.std.specs.Prelude.{◌≡◌};
ghost use Rattle.rules.specs.Check.{check_of};
ghost use Rattle.codes.specs.Codes.{slot_list};
ghost use Rattle.codes.specs.Codes.{check_code};
ghost use Rattle.capi.specs.ListCall.{version};

use codes::sizes::SLOTS;

// Whether a rule list is accepted: `RuleList::check`. Answers 0, or the refusal.
#[unsafe(no_mangle)]
pub extern "C" fn catrovindy_check(slots: &[u32; SLOTS], count: u32) -> u64
    ensures { result ≡ check_code (check_of (slot_list slots.now count)) }
{
    capi::catrovindy_check(slots, count)
}

// The library's version as one number.
#[unsafe(no_mangle)]
pub extern "C" fn catrovindy_version() -> u32
    ensures { result ≡ version }
{
    capi::catrovindy_version()
}
