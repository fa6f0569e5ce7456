// Worked cases, as a fact about the definitions that the contracts of the calls cite.
#![tactic(auto)]

ghost use Rattle.std.specs.Prelude.{◌≡◌};
ghost use Rattle.worked.specs.Plans.{brake};
ghost use Rattle.worked.specs.Worked.{Worked};

// The cases hold. There is nothing to do.
fn cases_hold()
    ensures { Worked brake }
{}

// The bytes of the brake plan, which most of the cases are about.
pub fn brake_plan() -> [u8; 59]
    ensures bytes { result ≡ brake }
    ensures worked { Worked brake }
{
    cases_hold();
    *b"\x01\x02\x01\x00\
        \x02\x01\x00\
        \x03\x01\x01\x00\x00\x00\x04\x00\x00\x00\x00\
        \x03\x01\x00\x00\x00\x00\x00\x00\x00\x00\x04\
        \x03\x00\x00\x00\x00\x00\x04\x00\x00\x00\x00\
        \x05\x00\x00\x00\x06\x00\x00\x00\x00\
        \x05\x00\x00\x00\x01\x00\x00\x00\x04\
        \x0f"
}
