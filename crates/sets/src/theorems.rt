//! What is proved of the walks over any set at once.
ghost use Rattle.sets.specs.Walked.{WalksListFacts, WalksListMembers, FactWalksEnd, MemberWalksEnd};

/// All members come in a walk, each once, rising, and nothing else: the facts of a set of facts, and the
/// members of a job set in a range.
pub fn walks_give_members()
    ensures facts { WalksListFacts }
    ensures members { WalksListMembers }
{}

/// Every set has such a walk that comes to its end, so that the theorem above is not empty.
pub fn walks_end()
    ensures facts { FactWalksEnd }
    ensures members { MemberWalksEnd }
{}
