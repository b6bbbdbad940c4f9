// Laws of renamed slots, each as the contract of a function that does nothing.
ghost use Rattle.alma_code.specs.Plain.{PlainCode};
ghost use Rattle.alma_code.specs.Rules.{IsSound};
ghost use Rattle.alma_lower_slots.specs.Sharing.{Sharing, Shares, Renames};
ghost use Rattle.alma_lower_slots.specs.Same.{DoesTheSame};

/// Where the slots of a sound code may be shared, the machine on the renamed code does the same.
#[tactic(auto, using(crate::proofs::Whole::renamed_does_the_same))]
pub fn renamed_code_does_the_same()
    ensures { (code new : PlainCode) (sharing : Sharing) → IsSound code → Shares code sharing
        → Renames code sharing new → DoesTheSame code new }
{}
