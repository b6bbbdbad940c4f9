// Laws of the code of a checked program, each as the contract of a function that does nothing.
ghost use Rattle.std.specs.Prelude.{◌≡◌, ◌*◌, ◌≤◌};
ghost use Rattle.alma_base.specs.Limits.{size_limit};
ghost use Rattle.alma_code.specs.Plain.{PlainCode};
ghost use Rattle.alma_code.specs.Records.{KeepsCounts, KeepsRecords, KeepsVersion};
ghost use Rattle.alma_code.specs.Rules.{IsSound};
ghost use Rattle.alma_ir.specs.Checked.{IsChecked};
ghost use Rattle.alma_ir.specs.Count.{nodes};
ghost use Rattle.alma_ir.specs.Tree.{Program};
ghost use Rattle.alma_lower_sound.specs.Entries.{HoldsEachOnce};
ghost use Rattle.alma_code.specs.Reads.{code_reads};
ghost use Rattle.alma_lower_sound.specs.Reads.{program_reads};
ghost use Rattle.alma_lower_sound.specs.Runs.{HasLongRuns};
ghost use Rattle.alma_lower_templates.specs.CodeOf.{IsCodeOf};

/// The code that the templates give for a checked program is sound, where the longest runs name its
/// slots.
pub fn code_of_a_checked_program_is_sound()
    ensures { (p : Program) (code : PlainCode) → IsChecked p → IsCodeOf p code → HasLongRuns p code
        → 16 * nodes p ≤ size_limit → IsSound code }
{}

/// No count of it is too large for an object, where its tables hold ranges and texts of the
/// program, each at most once.
pub fn code_of_a_checked_program_keeps_the_counts()
    ensures { (p : Program) (code : PlainCode) → IsChecked p → IsCodeOf p code → HasLongRuns p code
        → HoldsEachOnce p code → 16 * nodes p ≤ size_limit → KeepsCounts code }
{}

/// Its records are as those of an object must be.
pub fn code_of_a_checked_program_keeps_the_records()
    ensures { (p : Program) (code : PlainCode) → IsChecked p → IsCodeOf p code → HasLongRuns p code
        → HoldsEachOnce p code → KeepsRecords code }
{}

/// It is of the latest version, which an object may have.
pub fn code_of_a_program_keeps_the_version()
    ensures { (p : Program) (code : PlainCode) → IsCodeOf p code → KeepsVersion code }
{}

/// It holds a ReadInt or a ReadChar exactly where the program holds a READ.
pub fn code_of_a_program_reads_where_the_program_reads()
    ensures { (p : Program) (code : PlainCode) → IsCodeOf p code → code_reads code
        ≡ program_reads p }
{}

/// Each program has a code with such runs and tables.
pub fn each_program_has_such_a_code()
    ensures { (p : Program) → (code : PlainCode) × IsCodeOf p code × HasLongRuns p code
        × HoldsEachOnce p code }
{}
