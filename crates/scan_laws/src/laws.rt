//! Laws of the definitions. A law is the contract of a function that does nothing.
ghost use Rattle.scan_laws.specs.Groups.{EachTryBeginsBehind, GroupsAreMembers, NoTwoShareBytes};
ghost use Rattle.scan_laws.specs.Seen.{VerdictIsOfSeen};
ghost use Rattle.scan_laws.specs.Steps.{MatchesLieOnLines, RegionsAreClear, RegionsLieBetween};

/// Of what searches find: no two matches of a run of DAGs share a byte, each try of a member begins behind the one before,
/// and the run is what its members are.
pub fn law_of_groups()
    ensures bytes { NoTwoShareBytes }
    ensures tries { EachTryBeginsBehind }
    ensures members { GroupsAreMembers }
{}

/// A match of NEXT and EMPTY lies on the next line and one of SAME on the same one; the region of NOTs is what lies between
/// their neighbours, and is clear where none of them is found in it.
pub fn law_of_blocks()
    ensures lines { MatchesLieOnLines }
    ensures between { RegionsLieBetween }
    ensures clear { RegionsAreClear }
{}

/// Directives that scanning sees in one way have one verdict on a text.
pub fn law_of_verdicts()
    ensures { VerdictIsOfSeen }
{}
