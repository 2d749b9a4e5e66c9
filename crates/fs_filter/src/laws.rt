//! What subscriptions come to, told for each name and each subclass. The function does nothing: it stands for its
//! contract.

ghost use Rattle.fs_filter.specs.Laws as law;

/// A name, or a subclass, is subscribed where it was and where it is asked for; it stays subscribed where it is not
/// taken out. Subclasses of a list go one by one or all at once; where all are subscribed, all go or none.
pub fn subscriptions_are_sets()
    ensures name_added { law.NameIsAdded }
    ensures name_taken { law.NameIsTaken }
    ensures subclass_added { law.SubclassIsAdded }
    ensures subclass_taken { law.SubclassIsTaken }
    ensures all_taken { law.AllAreTaken }
{}
