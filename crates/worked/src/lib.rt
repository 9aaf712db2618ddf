// Worked lists: what each module makes of some short lists, computed by hand.
// Promises: the rules give just these.
#![tactic(auto)]

ghost use Rattle.std.specs.Prelude.{◌≡◌};
ghost use Rattle.worked.specs.Worked.{Worked};

// Each worked list holds of the rules.
fn all_hold()
    ensures lists { Worked }
{}

/// How many worked lists there are; each holds of the rules.
pub fn worked_lists() -> u8
    ensures value { result ≡ 10 }
    ensures lists { Worked }
{
    all_hold();
    10
}
