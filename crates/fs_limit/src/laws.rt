//! What holds of every change of limits. The function does nothing: it stands for its contract.

ghost use Rattle.fs_limit.specs.Laws as law;

/// Law: behind each step a slot holds a key once at most. Where a slot may hold a key, no more slots hold it then than
/// that one allows. The number of slots that hold a key grows only where one asks for it, and no further than that one
/// allows; over any steps it stays within a number that all who ask for the key keep to. Whoever may hold a key that it
/// asked for does, beside what it held. Whoever is released holds nothing, and each key is left to its other holders.
/// What the other slots hold stays as it is.
pub fn limits_law()
    ensures once { law.StaysOnce }
    ensures within { law.AllowedIsWithin }
    ensures grows { law.GrowsByAsking }
    ensures never { law.NeverMore }
    ensures asked { law.AskedIsHeld }
    ensures released { law.ReleasedHoldsNothing }
    ensures left { law.ReleasedLeavesOthers }
    ensures others { law.OthersStay }
{}
