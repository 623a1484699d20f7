//! Laws of the definitions. A law is the contract of a function that does nothing.
ghost use Rattle.pattern_laws.specs.Groups.{GroupsAreSet, UnreadableLies};
ghost use Rattle.pattern_laws.specs.Recalls.{RecallIsNearest, RecallIsStored};
ghost use Rattle.pattern_laws.specs.Texts.{RecallIsSameText};

/// Each group that gives something holds a part of the match.
pub fn law_of_groups()
    ensures set { GroupsAreSet }
    ensures unreadable { UnreadableLies }
{}

/// A recall is a reference to the group of the nearest definition to its left and matches the same text, and where there is
/// none it is the stored text.
pub fn law_of_recalls()
    ensures nearest { RecallIsNearest }
    ensures stored { RecallIsStored }
    ensures same_text { RecallIsSameText }
{}
