//! What the text of an event tells of it, and what reading does to the events of a ring. The functions do nothing: they
//! stand for their contracts.

ghost use Rattle.std.specs.Prelude.{◌≡◌, ◌<◌, ◌^◌, length};
ghost use Rattle.fs_event.specs.declared.event.Event.{Event};
ghost use Rattle.fs_event.specs.Texts.{plain, frame};
ghost use Rattle.fs_event.specs.Rings.{OneIsReleased, OthersAreHeld, NumbersStayBelow};
ghost use Rattle.fs_event.specs.Reading.{IsTellable, read_text, told, framed};

/// The headers of an event that have a value, each once, in order and unescaped, and its body are read back from its
/// text; the text is read back from its frame; and events with one text tell the same.
pub fn read_back()
    ensures plain { (event : Event) → IsTellable event → read_text (plain event) ≡ told event }
    ensures frame { (event : Event) → length (plain event) < 2 ^ 64 → read_text (frame event) ≡ framed (plain event) }
    ensures one { (a b : Event) → IsTellable a → IsTellable b → plain a ≡ plain b → told a ≡ told b }
{}

/// Law: once an event is released, the pair of its number has one reader less, or is gone with the last one, and the
/// pairs of all other numbers stay; and whatever number is greater than all is so still.
pub fn released_law<T>()
    ensures one { OneIsReleased T }
    ensures others { OthersAreHeld T }
    ensures below { NumbersStayBelow T }
{}
