//! Laws of what is due from programs, each as the contract of a function that does nothing.
ghost use Rattle.std.specs.Prelude.{◌≤◌, List, ℕ, length};
ghost use Rattle.alma_base.specs.Limits.{input_limit};
ghost use Rattle.alma_ir.specs.Tree.{Program};
ghost use Rattle.alma_plan.specs.Causes.{Causes, MayCome};
ghost use Rattle.alma_io.specs.Outside.{Outside, IsUndisturbed};
ghost use Rattle.alma_plan.specs.Plan.{Due, Ending, MayLack, Plan, Reading, plain as no_source};
ghost use Rattle.alma_plan.specs.Meant.{IsMeant};
ghost use Rattle.alma_plan.specs.Programs.{Last, Runs, sense};
ghost use Rattle.alma_plan.specs.Undisturbed.{ShowsDue};
ghost use Rattle.alma_source.specs.Verdict.{Verdict};

/// What is due from a run of a program is what its meaning says: its prints and its end, or a front
/// of them where the steps ran out.
pub fn a_run_is_what_its_program_means()
    ensures means { (program : List ℕ) (failed : Ending) (p : Program) (input : List ℕ)
        (steps : ℕ) (due : Due) → length input ≤ input_limit
        → (sense program failed).means (Runs p input steps) due
        → IsMeant program failed p input steps due }
{}

/// A call in which nothing fails, and whose files are there, shows what its plan may come to: one
/// of a plan that judges sources, and one of a plan that judges none.
pub fn an_undisturbed_call_shows_what_is_due()
    ensures shown { (program : List ℕ) (failed : Ending) (plan : Plan Verdict Last)
        (before after : Outside) (status : ℕ)
        → Causes (sense program failed) program plan before after status
        → IsUndisturbed before after status
        → (MayLack (sense program failed) before.files.told plan → ⊥)
        → (reading : Reading) × (due : Due)
        × MayCome (sense program failed) program plan before reading due
        × ShowsDue before after status due }
    ensures plain { (program : List ℕ) (plan : Plan ⊥ Due) (before after : Outside) (status : ℕ)
        → Causes no_source program plan before after status → IsUndisturbed before after status
        → (MayLack no_source before.files.told plan → ⊥)
        → (reading : Reading) × (due : Due) × MayCome no_source program plan before reading due
        × ShowsDue before after status due }
{}
