//! Laws of the definitions. A law is the contract of a function that does nothing.
ghost use Rattle.lit_paths.specs.Laws.{JoinedIsNormal, NamesStandBelow, PathsAreInTexts, TextsTellPaths};

/// A joined path is normal, its text tells it, and the path of a name is written behind its directory.
#[tactic(auto, using(crate::proofs::NormalLemmas::joined_is_normal, crate::proofs::LawLemmas::names_stand_below, crate::proofs::LawLemmas::texts_tell_paths, crate::proofs::LawLemmas::paths_are_in_texts))]
pub fn law_of_paths()
    ensures joined { JoinedIsNormal }
    ensures names { NamesStandBelow }
    ensures texts { TextsTellPaths }
    ensures within { PathsAreInTexts }
{}
