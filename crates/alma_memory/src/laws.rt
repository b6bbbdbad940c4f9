// What users of a memory are promised: each law is the contract of a function that does nothing.
ghost use Rattle.alma_memory.specs.Calls.{GivesBack};

/// A failed branch leaves no trace: a choice, any calls that leave its entry, a cut to its height
/// and `fail` give back the frames from before the choice.
pub fn a_failed_branch_leaves_no_trace()
    ensures { GivesBack }
{}
