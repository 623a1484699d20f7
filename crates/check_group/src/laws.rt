//! What a reader believes of groups.
ghost use Rattle.check_group.specs.Laws.{MembersApart, TriesAreAChain};

/// A member's tries are a chain, and the last of them overlaps no range.
pub fn tries_are_a_chain()
    ensures { TriesAreAChain }
{}

/// What a member is placed on overlaps no range before it.
pub fn members_apart()
    ensures { MembersApart }
{}
