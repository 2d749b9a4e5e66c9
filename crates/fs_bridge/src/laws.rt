//! What holds of every change of bridges, and of all who hang up. The functions do nothing: they stand for their
//! contracts.

ghost use Rattle.fs_bridge.specs.Laws as laws;
ghost use Rattle.fs_bridge.specs.Hangups as hangups;
ghost use Rattle.fs_bridge.specs.Endings as endings;
ghost use Rattle.fs_bridge.specs.Leavings as leavings;

/// Law: who is part of a bridge once one is joined, and once one has ended.
pub fn bridges_law()
    ensures joined { laws.JoinedArePart }
    ensures ended { laws.EndedIsLeft }
{}

/// Law: whoever hangs up is named, or dragged by one who hangs up; whoever lives and is dragged by one who hangs up,
/// hangs up; nobody hangs up twice, nor outlives a bridge to hang up.
pub fn closure_law()
    ensures each { hangups.EachIsNamedOrDragged }
    ensures dragged { hangups.EachDraggedHangsUp }
    ensures once { hangups.NobodyTwice }
    ensures members { hangups.RoundsAreMembers }
    ensures survivors { hangups.NoSurvivorHangsUp }
{}

/// Law: whoever hangs up is in one round, of one cause: that of the least slot of the round before which drags the
/// channel, and for one slot that of the first of partner, origination and peer. Whoever is in a round hangs up.
pub fn rounds_law()
    ensures each { endings.EachIsInARound }
    ensures all { endings.EachOfARoundHangsUp }
    ensures one { endings.OneRoundAndCause }
{}

/// Law: a bridge ends exactly where one of its legs hangs up, of the cause of the leg that died first, and once. Who
/// is left by a leg that hangs up, and does not hang up, outlives its bridge, and nobody else.
pub fn endings_law()
    ensures ends { endings.EndsWithALeg }
    ensures first { endings.EachEndsOfTheFirst }
    ensures once { endings.NoBridgeEndsTwice }
    ensures survivors { endings.SurvivorsAreLeft }
{}

/// Law: where some leave, the rounds are those of a hangup once the bridges that they leave have ended. In round 0 are
/// those who hang up first, and those who are left and do not outlive it; where nobody leaves, it is that hangup.
pub fn leaving_law()
    ensures nobody { leavings.NobodyLeaves }
    ensures first { leavings.FirstAreNamedOrLeft }
    ensures cause { leavings.LeftClear }
    ensures others { leavings.OthersStand }
    ensures hangup { leavings.LeavingIsAHangup }
    ensures members { leavings.MembersAreOfRounds }
    ensures one { leavings.OfOneRoundAndCause }
{}

/// Law: where some leave, a bridge ends exactly where one of its legs leaves or hangs up, and once: of a normal
/// clearing where it is left, else of the cause of the leg that died first.
pub fn parting_law()
    ensures parted { leavings.PartedAreLeft }
    ensures order { leavings.PartedAreInOrder }
    ensures others { leavings.OthersEndOfTheFirst }
    ensures ends { leavings.EndsWithALegOrLeaver }
    ensures once { leavings.NoneEndsTwice }
{}

/// Law: where some leave, those outlive a bridge who are left, and neither leave, too, nor hang up; of those who leave
/// live on all who do not hang up.
pub fn leavers_law()
    ensures survivors { leavings.OthersSurvive }
    ensures stay { leavings.SurvivorsStay }
    ensures leavers { leavings.LeaversLive }
    ensures order { leavings.LeaversAreInOrder }
{}
