//! What holds of every change of queues. The functions do nothing: they stand for their contracts.

ghost use Rattle.fs_fifo.specs.Laws as law;

/// Law: what each change makes of a queue. A queue is in order; who is taken stands first, and none who waits on has a
/// lesser number; who enters is put behind all of its priority and of lesser numbers; who leaves goes out of the middle
/// too. Who is taken or leaves goes alone, and the others keep their order. The other queues stay as they are, and so
/// do all where nobody is taken or leaves.
pub fn queues_law()
    ensures order { law.QueuesAreOrdered }
    ensures first { law.FirstIsTaken }
    ensures least { law.LeastIsTaken }
    ensures placed { law.EnteredIsPlaced }
    ensures gone { law.LeftIsGone }
    ensures alone { law.OneGoes }
    ensures others { law.OthersStay }
    ensures nobody { law.NobodyChangesNothing }
{}

/// Law: which slots stand in a queue once one entered, was taken, or left.
pub fn standing_law()
    ensures entered { law.EnteredStands }
    ensures taken { law.TakenStandsNowhere }
    ensures left { law.LeftStandsNowhere }
{}
