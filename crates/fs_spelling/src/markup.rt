//! What is read, told apart from the reading. These functions do nothing: each stands for its contract.

ghost use Rattle.fs_spelling.specs.Laws as laws;

/// A value says at most one text, and it is read as that text.
pub fn one_value()
    ensures read { laws.ValueReadIsSpelt }
    ensures said { laws.ValueSpeltIsRead }
    ensures one { laws.ValueSpellsOne }
{}

/// An attribute is read as what it spells, whatever follows it, and what is read as an attribute spells it.
pub fn one_attribute()
    ensures read { laws.AttributeReadIsSpelt }
    ensures spelt { laws.AttributeSpeltIsRead }
{}

/// Comments and tags are read as what they spell, whatever follows them, and what is read spells it.
pub fn one_markup()
    ensures read { laws.MarkReadIsSpelt }
    ensures comment { laws.CommentSpeltIsRead }
    ensures end_tag { laws.EndTagSpeltIsRead }
    ensures tag { laws.TagSpeltIsRead }
{}

/// Behind a `<` in an element markup is read as cut short, or as bad, exactly where it is.
pub fn wrong_markup()
    ensures cut { laws.CutIsRead }
    ensures bad { laws.BadIsRead }
{}
