//! What a document is, told apart from the reading.

ghost use Rattle.fs_spelling.specs.Laws as laws;

/// An element is read as it begins: its kind is the one of its name at its level, its attributes say their texts, and
/// what it adds is added.
pub fn one_element()
    ensures read { laws.ElementReadIsSpelt }
    ensures spelt { laws.ElementSpeltIsRead }
{}

/// What is read of bytes is spelt by them, what they spell is read, and they spell one configuration at most.
pub fn one_document()
    ensures read { laws.DocumentReadIsSpelt }
    ensures spelt { laws.DocumentSpeltIsRead }
    ensures one { laws.DocumentSpellsOne }
{}

/// A configuration that is spelt has each setting in its range, globals that are bounded as globals are, and no count
/// above its limit.
pub fn within_limits()
    ensures { laws.SpeltIsWithin }
{}

/// The tag of an element is read as the fault for which it is wrong.
pub fn wrong_element()
    ensures { laws.WrongElementIsRead }
{}

/// The fault that is told of bytes is one that they have, a fault that they have is told of them, and they have one at
/// most. Bytes spell a configuration or have a fault, and never both.
pub fn one_fault()
    ensures had { laws.FaultToldIsHad }
    ensures told { laws.FaultHadIsTold }
    ensures one { laws.BytesHaveOneFault }
    ensures either { laws.SpeltOrFaulty }
{}
