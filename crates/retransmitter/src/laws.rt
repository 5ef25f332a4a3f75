//! What holds of slots after any arms, cancels and claims.

ghost use Rattle.retransmitter.specs.Calls.{ArmedOnce, CancelsEnd, ClaimsAreArmed, GenerationsNeverFall, LiveOnce, OnlyArmsBegin};

/// A slot's generation never falls. It rises only where an arm makes the slot live, and then by one.
pub fn generations_rise_by_arms()
    ensures never_fall { GenerationsNeverFall }
    ensures only_arms { OnlyArmsBegin }
{}

/// A generation of a slot is live once at most: once it is cancelled, it is never claimed again.
pub fn generations_live_once()
    ensures once { LiveOnce }
    ensures cancelled { CancelsEnd }
{}

/// What is claimed was armed under the slot and generation that the claim shows, and nothing else was.
pub fn claims_are_armed()
    ensures armed { ClaimsAreArmed }
    ensures once { ArmedOnce }
{}
