//! Small codes that are run and judged by computing, each in the contract of a function that does
//! nothing.
ghost use Rattle.std.specs.Prelude.{◌≡◌, ◌-◌, ◌^◌, true, false, pos, negsuc, [], ◌∷◌, length, take, codes, None};
ghost use Rattle.std.specs.Fmt.{decimal, signed_decimal};
ghost use Rattle.alma_base.specs.declared.fault.RunFault.TheVariants as fault;
ghost use Rattle.alma_code.specs.declared.cell.Cell.TheVariants as cell;
ghost use Rattle.alma_code.specs.declared.head.ParamKind.TheVariants as param;
ghost use Rattle.alma_code.specs.declared.instr.Instr.TheVariants as I;
ghost use Rattle.alma_code.specs.declared.step.End.TheVariants as end;
ghost use Rattle.alma_code.specs.declared.step.Step.TheVariants as answer;
ghost use Rattle.alma_code.specs.Picture.{cell_at, last_frame, top_of, entry_at};
ghost use Rattle.alma_code.specs.Machine.{step, start};
ghost use Rattle.alma_code.specs.Records.{KeepsCounts, KeepsRecords};
ghost use Rattle.alma_code.specs.Rules.{IsTable, code_fault};
ghost use Rattle.alma_tests_code.specs.Links.{LinksRun, LinksRefused, LinesTell, TextsTell};
ghost use Rattle.alma_tests_code.specs.Codes.{Ends, Prints, Breaks, state_after, change_of, param_of, numbers_to, places_to, marks_to, routine_to, code_with, main_with, plain_main, least, branch_undone, choices_cut, sum_carried, carry_grows, left_unknown, right_unknown, both_unknown, out_of_range, cells_equated, mix_called, frame_again, function_called, frame_too_large, input_again, read_one, loop_counts, values_print, operation, index_outside, part_named, global_written, array_copied, copy_overlaps, equation_overlaps, equation_stops, jump_if_zero, bound_to, byte_read, small_read, nothing_held, kept_below, unset_argument, loop_by};

/// The least code is sound, and its first step ends it in success.
#[tactic(auto, using(crate::proofs::Computed::least_code_table, crate::proofs::Computed::least_code_counts, crate::proofs::Computed::least_code_records, crate::proofs::Computed::least_code_sound, crate::proofs::Computed::least_code_ends, crate::proofs::Computed::least_code_prints))]
pub fn least_code()
    ensures table { IsTable least }
    ensures counts { KeepsCounts least }
    ensures records { KeepsRecords least }
    ensures sound { code_fault least ≡ None }
    ensures ends { Ends least [] 1 end.Succeeded }
    ensures prints { Prints least [] 1 [] }
{}

/// A failing branch leaves the frames as they were when its entry was pushed. What it printed
/// stays.
#[tactic(auto, using(crate::proofs::Computed::branch_comes_back_sound, crate::proofs::Computed::branch_comes_back_restores, crate::proofs::Computed::branch_comes_back_popped, crate::proofs::Computed::branch_comes_back_ends, crate::proofs::Computed::branch_comes_back_prints))]
pub fn branch_comes_back()
    ensures sound { code_fault branch_undone ≡ None }
    ensures restores { (state_after branch_undone [] 5).now ≡ (start branch_undone).now }
    ensures pops { (step branch_undone [] (state_after branch_undone [] 4)).answer
        ≡ answer.Popped 1 }
    ensures ends { Ends branch_undone [] 6 end.Succeeded }
    ensures prints { Prints branch_undone [] 6 (codes "Hi" ∷ []) }
{}

/// After a cut a failure finds no entry. The pop that finds none is a step and is not counted in
/// the pops.
#[tactic(auto, using(crate::proofs::Computed::cut_drops_choices_sound, crate::proofs::Computed::cut_drops_choices_cut, crate::proofs::Computed::cut_drops_choices_ends, crate::proofs::Computed::cut_drops_choices_prints, crate::proofs::Computed::cut_drops_choices_steps, crate::proofs::Computed::cut_drops_choices_choices, crate::proofs::Computed::cut_drops_choices_fails))]
pub fn cut_drops_choices()
    ensures sound { code_fault choices_cut ≡ None }
    ensures cut { (step choices_cut [] (state_after choices_cut [] 4)).answer ≡ answer.Cut 0 }
    ensures ends { Ends choices_cut [] 8 end.Failed }
    ensures prints { Prints choices_cut [] 8 (decimal 1 ∷ []) }
    ensures steps { (state_after choices_cut [] 8).steps ≡ 8 }
    ensures choices { (state_after choices_cut [] 8).choices ≡ 1 }
    ensures fails { (state_after choices_cut [] 8).fails ≡ 0 }
{}

/// A body sees what the bodies before it kept, and the variable of the alternatives is unknown at
/// the end.
#[tactic(auto, using(crate::proofs::Computed::forall_carries_a_sum_sound, crate::proofs::Computed::forall_carries_a_sum_ends, crate::proofs::Computed::forall_carries_a_sum_prints, crate::proofs::Computed::forall_carries_a_sum_cells, crate::proofs::Computed::forall_carries_a_sum_choices, crate::proofs::Computed::forall_carries_a_sum_fails))]
pub fn forall_carries_a_sum()
    ensures sound { code_fault sum_carried ≡ None }
    ensures ends { Ends sum_carried [] 19 end.Succeeded }
    ensures prints { Prints sum_carried [] 19 (decimal 3 ∷ []) }
    ensures cells { take 3 (last_frame (state_after sum_carried [] 19).now).cells ≡ cell.Int (pos 0)
        ∷ cell.Int (pos 3) ∷ cell.Unknown ∷ [] }
    ensures choices { (state_after sum_carried [] 19).choices ≡ 4 }
    ensures fails { (state_after sum_carried [] 19).fails ≡ 2 }
{}

/// A carry gains the places that later bodies change, in order of slot.
#[tactic(auto, using(crate::proofs::Computed::forall_carry_grows_sound, crate::proofs::Computed::forall_carry_grows_first, crate::proofs::Computed::forall_carry_grows_carry, crate::proofs::Computed::forall_carry_grows_ends, crate::proofs::Computed::forall_carry_grows_prints))]
pub fn forall_carry_grows()
    ensures sound { code_fault carry_grows ≡ None }
    ensures first { (top_of (state_after carry_grows [] 9).held).carry ≡ [] }
    ensures carry { (top_of (state_after carry_grows [] 18).held).carry ≡ change_of 0 1 (pos 1)
        ∷ change_of 0 2 (pos 2) ∷ [] }
    ensures ends { Ends carry_grows [] 22 end.Succeeded }
    ensures prints { Prints carry_grows [] 22 (decimal 1 ∷ decimal 2 ∷ []) }
{}

/// An equation whose left side is unknown gives it the number of the right side.
#[tactic(auto, using(crate::proofs::Computed::equation_binds_left_sound, crate::proofs::Computed::equation_binds_left_ends, crate::proofs::Computed::equation_binds_left_prints))]
pub fn equation_binds_left()
    ensures sound { code_fault left_unknown ≡ None }
    ensures ends { Ends left_unknown [] 6 end.Succeeded }
    ensures prints { Prints left_unknown [] 6 (decimal 5 ∷ []) }
{}

/// An equation whose right side is unknown gives it the number of the left side.
#[tactic(auto, using(crate::proofs::Computed::equation_binds_right_sound, crate::proofs::Computed::equation_binds_right_ends, crate::proofs::Computed::equation_binds_right_prints))]
pub fn equation_binds_right()
    ensures sound { code_fault right_unknown ≡ None }
    ensures ends { Ends right_unknown [] 6 end.Succeeded }
    ensures prints { Prints right_unknown [] 6 (decimal 5 ∷ []) }
{}

/// An equation of two unknown cells is a fault, and so is one that would put a number out of its
/// range.
#[tactic(auto, using(crate::proofs::Computed::equation_faults_unknown, crate::proofs::Computed::equation_faults_range))]
pub fn equation_faults()
    ensures unknown { Ends both_unknown [] 3 (end.Fault fault.Unknown) }
    ensures range { Ends out_of_range [] 4 (end.Fault fault.Range) }
{}

/// Cells are equated one after another, each way.
#[tactic(auto, using(crate::proofs::Computed::cells_are_equated_sound, crate::proofs::Computed::cells_are_equated_ends, crate::proofs::Computed::cells_are_equated_prints))]
pub fn cells_are_equated()
    ensures sound { code_fault cells_equated ≡ None }
    ensures ends { Ends cells_equated [] 10 end.Succeeded }
    ensures prints { Prints cells_equated [] 10
        (decimal 1 ∷ decimal 2 ∷ decimal 1 ∷ decimal 2 ∷ []) }
{}

/// A MIX argument that is a place goes by reference, and one that is a number has a cell of its
/// own.
#[tactic(auto, using(crate::proofs::Computed::mix_takes_both_sound, crate::proofs::Computed::mix_takes_both_called, crate::proofs::Computed::mix_takes_both_returned, crate::proofs::Computed::mix_takes_both_ends, crate::proofs::Computed::mix_takes_both_prints))]
pub fn mix_takes_both()
    ensures sound { code_fault mix_called ≡ None }
    ensures called { (step mix_called [] (state_after mix_called [] 1)).answer ≡ answer.Called 1 2 }
    ensures returned { (step mix_called [] (state_after mix_called [] 4)).answer
        ≡ answer.Returned 1 }
    ensures ends { Ends mix_called [] 16 end.Failed }
    ensures prints { Prints mix_called [] 16 (decimal 7 ∷ []) }
{}

/// A frame that was left is live again where a choice in it is retried.
#[tactic(auto, using(crate::proofs::Computed::frame_lives_again_sound, crate::proofs::Computed::frame_lives_again_left, crate::proofs::Computed::frame_lives_again_again, crate::proofs::Computed::frame_lives_again_ends, crate::proofs::Computed::frame_lives_again_prints))]
pub fn frame_lives_again()
    ensures sound { code_fault frame_again ≡ None }
    ensures left { length (state_after frame_again [] 10).now ≡ 1 }
    ensures again { length (state_after frame_again [] 11).now ≡ 2 }
    ensures ends { Ends frame_again [] 19 end.Succeeded }
    ensures prints { Prints frame_again [] 19 (decimal 2 ∷ []) }
{}

/// A routine with a result puts it into the slot that the call names.
#[tactic(auto, using(crate::proofs::Computed::function_gives_its_number_sound, crate::proofs::Computed::function_gives_its_number_ends, crate::proofs::Computed::function_gives_its_number_prints))]
pub fn function_gives_its_number()
    ensures sound { code_fault function_called ≡ None }
    ensures ends { Ends function_called [] 5 end.Succeeded }
    ensures prints { Prints function_called [] 5 (decimal 4 ∷ []) }
{}

/// A call whose declared cells do not fit is a fault.
#[tactic(auto, using(crate::proofs::Computed::too_many_cells_ends))]
pub fn too_many_cells()
    ensures { Ends frame_too_large [] 1 (end.Fault fault.CellsFull) }
{}

/// A failing branch gives back what it read.
#[tactic(auto, using(crate::proofs::Computed::input_comes_back_sound, crate::proofs::Computed::input_comes_back_ends, crate::proofs::Computed::input_comes_back_prints))]
pub fn input_comes_back()
    ensures sound { code_fault input_again ≡ None }
    ensures ends { Ends input_again (codes "5 6") 9 end.Succeeded }
    ensures prints { Prints input_again (codes "5 6") 9 (decimal 5 ∷ []) }
{}

/// A READ that finds no number fails, and one that finds a number outside 64 bits is a fault.
#[tactic(auto, using(crate::proofs::Computed::read_finds_nothing_none, crate::proofs::Computed::read_finds_nothing_fault))]
pub fn read_finds_nothing()
    ensures none { Ends read_one (codes " x") 3 end.Failed }
    ensures fault { Ends read_one (codes "9223372036854775808") 2 (end.Fault fault.ReadRange) }
{}

/// A loop goes up to its limit.
#[tactic(auto, using(crate::proofs::Computed::loop_goes_to_its_limit_sound, crate::proofs::Computed::loop_goes_to_its_limit_ends, crate::proofs::Computed::loop_goes_to_its_limit_prints))]
pub fn loop_goes_to_its_limit()
    ensures sound { code_fault loop_counts ≡ None }
    ensures ends { Ends loop_counts [] 12 end.Succeeded }
    ensures prints { Prints loop_counts [] 12 (decimal 1 ∷ decimal 2 ∷ decimal 3 ∷ []) }
{}

/// A number prints in decimal, a byte modulo 256, a truth by its name.
#[tactic(auto, using(crate::proofs::Computed::values_are_printed_sound, crate::proofs::Computed::values_are_printed_prints))]
pub fn values_are_printed()
    ensures sound { code_fault values_print ≡ None }
    ensures prints { Prints values_print [] 6
        (signed_decimal (negsuc 0) ∷ (255 ∷ []) ∷ codes "TRUE" ∷ (10 ∷ []) ∷ []) }
{}

/// A quotient is rounded down, and the remainder is what it leaves.
#[tactic(auto, using(crate::proofs::Computed::arithmetic_rounds_down_quotient, crate::proofs::Computed::arithmetic_rounds_down_remainder, crate::proofs::Computed::arithmetic_rounds_down_negative, crate::proofs::Computed::arithmetic_rounds_down_least))]
pub fn arithmetic_rounds_down()
    ensures quotient { Prints (operation (I.Div 3 1 2) (negsuc 6) (pos 2)) [] 5
        (signed_decimal (negsuc 3) ∷ []) }
    ensures remainder { Prints (operation (I.Mod 3 1 2) (negsuc 6) (pos 2)) [] 5 (decimal 1 ∷ []) }
    ensures negative { Prints (operation (I.Mod 3 1 2) (pos 7) (negsuc 1)) [] 5
        (signed_decimal (negsuc 0) ∷ []) }
    ensures least { Prints (operation (I.Mod 3 1 2) (negsuc (2 ^ 63 - 1)) (negsuc 0)) [] 5
        (decimal 0 ∷ []) }
{}

/// A result outside INTEGER is a fault, and so are a zero divisor, an index outside its range and
/// an unknown number.
#[tactic(auto, using(crate::proofs::Computed::arithmetic_faults_sum, crate::proofs::Computed::arithmetic_faults_quotient, crate::proofs::Computed::arithmetic_faults_divisor, crate::proofs::Computed::arithmetic_faults_index, crate::proofs::Computed::arithmetic_faults_unknown))]
pub fn arithmetic_faults()
    ensures sum { Ends (operation (I.Add 3 1 2) (pos (2 ^ 63 - 1)) (pos 1)) [] 3
        (end.Fault fault.Overflow) }
    ensures quotient { Ends (operation (I.Div 3 1 2) (negsuc (2 ^ 63 - 1)) (negsuc 0)) [] 3
        (end.Fault fault.Overflow) }
    ensures divisor { Ends (operation (I.Mod 3 1 2) (pos 1) (pos 0)) [] 3
        (end.Fault fault.ZeroDivide) }
    ensures index { Ends index_outside [] 3 (end.Fault fault.Index) }
    ensures unknown { Ends (plain_main (I.Check 1 ∷ I.Return ∷ [])) [] 1 (end.Fault fault.Unknown) }
{}

/// Rules 1 to 3, of the head of a routine.
#[tactic(auto, using(crate::proofs::Computed::routines_are_refused_empty_code, crate::proofs::Computed::routines_are_refused_main_result, crate::proofs::Computed::routines_are_refused_slot_count, crate::proofs::Computed::routines_are_refused_position, crate::proofs::Computed::routines_are_refused_param_slots))]
pub fn routines_are_refused()
    ensures empty_code { Breaks (code_with (routine_to 1 (numbers_to 1 ∷ []) [] false 1
        ∷ routine_to 1 (numbers_to 1 ∷ []) [] false 1 ∷ []) (I.Return ∷ [])) 1 1 }
    ensures main_result { Breaks (code_with (routine_to 1 (numbers_to 1 ∷ []) [] true 1 ∷ [])
        (I.ReturnValue 0 ∷ [])) 1 0 }
    ensures slot_count { Breaks (main_with 2 (numbers_to 1 ∷ []) (I.Return ∷ [])) 2 0 }
    ensures position { Breaks (main_with 1 (marks_to 1 ∷ []) (I.Return ∷ [])) 3 0 }
    ensures param_slots { Breaks (code_with (routine_to 1 (numbers_to 1 ∷ []) [] false 1
        ∷ routine_to 1 (numbers_to 1 ∷ []) (param_of param.Mix 1 ∷ []) false 2 ∷ [])
        (I.Return ∷ I.Return ∷ [])) 3 1 }
{}

/// Rules 4 to 7, of the slots that an instruction names.
#[tactic(auto, using(crate::proofs::Computed::slots_are_refused_wrong_kind, crate::proofs::Computed::slots_are_refused_input_position, crate::proofs::Computed::slots_are_refused_place_of_place, crate::proofs::Computed::slots_are_refused_part_outside, crate::proofs::Computed::slots_are_refused_elements_outside, crate::proofs::Computed::slots_are_refused_many_cells))]
pub fn slots_are_refused()
    ensures wrong_kind { Breaks (plain_main (I.Const 4 (pos 1) ∷ I.Return ∷ [])) 4 0 }
    ensures input_position { Breaks (plain_main (I.Const 0 (pos 1) ∷ I.Return ∷ [])) 4 0 }
    ensures place_of_place { Breaks (plain_main (I.Local 4 5 ∷ I.Return ∷ [])) 5 0 }
    ensures part_outside { Breaks (plain_main (I.Local 4 1 ∷ I.Field 5 4 1 ∷ I.Return ∷ [])) 5 1 }
    ensures elements_outside { Breaks (plain_main (I.Local 4 1 ∷ I.Const 3 (pos 1) ∷ I.Index 5 4 3 1
        ∷ I.Return ∷ [])) 6 2 }
    ensures many_cells { Breaks (main_with 5 (numbers_to 4 ∷ places_to 2 5 ∷ [])
        (I.Local 4 1 ∷ I.Load 1 4 ∷ I.Return ∷ [])) 7 1 }
{}

/// Rules 8 to 12, of what else an instruction names and of where it stands.
#[tactic(auto, using(crate::proofs::Computed::words_are_refused_no_range, crate::proofs::Computed::words_are_refused_no_text, crate::proofs::Computed::words_are_refused_jump_out, crate::proofs::Computed::words_are_refused_call_of_main, crate::proofs::Computed::words_are_refused_call_last, crate::proofs::Computed::words_are_refused_no_end, crate::proofs::Computed::words_are_refused_other_fault, crate::proofs::Computed::words_are_refused_no_result))]
pub fn words_are_refused()
    ensures no_range { Breaks (plain_main (I.InRange 1 2 ∷ I.Return ∷ [])) 8 0 }
    ensures no_text { Breaks (plain_main (I.WriteText 1 ∷ I.Return ∷ [])) 8 0 }
    ensures jump_out { Breaks (plain_main (I.Jump 2 ∷ I.Return ∷ [])) 9 0 }
    ensures call_of_main { Breaks (plain_main (I.Call 0 0 0 ∷ I.Return ∷ [])) 10 0 }
    ensures call_last { Breaks (code_with (routine_to 1 (numbers_to 1 ∷ []) [] false 1
        ∷ routine_to 1 (numbers_to 1 ∷ []) [] false 2 ∷ []) (I.Call 1 0 0 ∷ I.Return ∷ [])) 10 0 }
    ensures no_end { Breaks (plain_main (I.WriteLine ∷ [])) 11 0 }
    ensures other_fault { Breaks (plain_main (I.Fault 4 ∷ [])) 12 0 }
    ensures no_result { Breaks (plain_main (I.ReturnValue 1 ∷ [])) 12 0 }
{}

/// Each operation writes its result; a truth is 1 or 0.
#[tactic(auto, using(crate::proofs::Computed::operations_compute_copy, crate::proofs::Computed::operations_compute_difference, crate::proofs::Computed::operations_compute_product, crate::proofs::Computed::operations_compute_opposite, crate::proofs::Computed::operations_compute_equal, crate::proofs::Computed::operations_compute_less, crate::proofs::Computed::operations_compute_less_or_equal, crate::proofs::Computed::operations_compute_flip, crate::proofs::Computed::operations_compute_flip_zero, crate::proofs::Computed::operations_compute_range))]
pub fn operations_compute()
    ensures copy { Prints (operation (I.Move 3 1) (pos 5) (pos 0)) [] 5 (decimal 5 ∷ []) }
    ensures difference { Prints (operation (I.Sub 3 1 2) (pos 7) (pos 9)) [] 5
        (signed_decimal (negsuc 1) ∷ []) }
    ensures product { Prints (operation (I.Mul 3 1 2) (negsuc 2) (pos 4)) [] 5
        (signed_decimal (negsuc 11) ∷ []) }
    ensures opposite { Prints (operation (I.Neg 3 1) (pos 5) (pos 0)) [] 5
        (signed_decimal (negsuc 4) ∷ []) }
    ensures equal { Prints (operation (I.Equal 3 1 2) (pos 5) (pos 5)) [] 5 (decimal 1 ∷ []) }
    ensures less { Prints (operation (I.Less 3 1 2) (pos 5) (pos 5)) [] 5 (decimal 0 ∷ []) }
    ensures less_or_equal { Prints (operation (I.LessEq 3 1 2) (pos 5) (pos 5)) [] 5
        (decimal 1 ∷ []) }
    ensures flip { Prints (operation (I.Flip 3 1) (pos 7) (pos 0)) [] 5 (decimal 0 ∷ []) }
    ensures flip_zero { Prints (operation (I.Flip 3 1) (pos 0) (pos 0)) [] 5 (decimal 1 ∷ []) }
    ensures range { Ends (operation (I.InRange 1 1) (pos 3) (pos 0)) [] 3 (end.Fault fault.Range) }
{}

/// A place is copied and narrowed, and its cells are read, looked at and written.
#[tactic(auto, using(crate::proofs::Computed::places_name_parts_sound, crate::proofs::Computed::places_name_parts_ends, crate::proofs::Computed::places_name_parts_prints))]
pub fn places_name_parts()
    ensures sound { code_fault part_named ≡ None }
    ensures ends { Ends part_named [] 12 end.Succeeded }
    ensures prints { Prints part_named [] 12 (decimal 9 ∷ decimal 1 ∷ decimal 9 ∷ []) }
{}

/// A procedure reaches the variables of the module.
#[tactic(auto, using(crate::proofs::Computed::globals_are_shared_sound, crate::proofs::Computed::globals_are_shared_ends, crate::proofs::Computed::globals_are_shared_prints))]
pub fn globals_are_shared()
    ensures sound { code_fault global_written ≡ None }
    ensures ends { Ends global_written [] 7 end.Succeeded }
    ensures prints { Prints global_written [] 7 (decimal 8 ∷ []) }
{}

/// An array by value is a copy.
#[tactic(auto, using(crate::proofs::Computed::arrays_go_by_value_sound, crate::proofs::Computed::arrays_go_by_value_ends, crate::proofs::Computed::arrays_go_by_value_prints))]
pub fn arrays_go_by_value()
    ensures sound { code_fault array_copied ≡ None }
    ensures ends { Ends array_copied [] 9 end.Succeeded }
    ensures prints { Prints array_copied [] 9 (decimal 6 ∷ decimal 5 ∷ []) }
{}

/// A copy takes all cells as they were; an equation sees what the one before it wrote, and a fault
/// leaves that.
#[tactic(auto, using(crate::proofs::Computed::cells_overlap_copy, crate::proofs::Computed::cells_overlap_equation, crate::proofs::Computed::cells_overlap_fault, crate::proofs::Computed::cells_overlap_written))]
pub fn cells_overlap()
    ensures copy { Prints copy_overlaps [] 9 (decimal 1 ∷ decimal 1 ∷ decimal 2 ∷ []) }
    ensures equation { Prints equation_overlaps [] 8 (decimal 1 ∷ decimal 1 ∷ decimal 1 ∷ []) }
    ensures fault { Ends equation_stops [] 4 (end.Fault fault.Unknown) }
    ensures written { cell_at (state_after equation_stops [] 4).now 0 3 cell.Unset ≡ cell.Int
        (pos 7) }
{}

/// A jump on a number is taken where it is 0.
#[tactic(auto, using(crate::proofs::Computed::jumps_test_zero_sound, crate::proofs::Computed::jumps_test_zero_zero, crate::proofs::Computed::jumps_test_zero_other))]
pub fn jumps_test_zero()
    ensures sound { code_fault (jump_if_zero (pos 0)) ≡ None }
    ensures zero { Ends (jump_if_zero (pos 0)) [] 3 end.Succeeded }
    ensures other { Ends (jump_if_zero (pos 1)) [] 3 (end.Fault fault.NoCase) }
{}

/// A cell that is known is compared, and its range is not asked.
#[tactic(auto, using(crate::proofs::Computed::known_cells_are_compared_same, crate::proofs::Computed::known_cells_are_compared_other))]
pub fn known_cells_are_compared()
    ensures same { Ends (bound_to (pos 1)) [] 5 end.Succeeded }
    ensures other { Ends (bound_to (pos 3)) [] 5 end.Failed }
{}

/// A byte is read, and the end of the input is a failure.
#[tactic(auto, using(crate::proofs::Computed::bytes_are_read_sound, crate::proofs::Computed::bytes_are_read_prints, crate::proofs::Computed::bytes_are_read_end))]
pub fn bytes_are_read()
    ensures sound { code_fault byte_read ≡ None }
    ensures prints { Prints byte_read (codes "x") 4 (codes "x" ∷ []) }
    ensures end { Ends byte_read [] 3 end.Failed }
{}

/// A number that is read outside its range is a fault and leaves the input position.
#[tactic(auto, using(crate::proofs::Computed::range_leaves_input_fault, crate::proofs::Computed::range_leaves_input_position, crate::proofs::Computed::range_leaves_input_moved))]
pub fn range_leaves_input()
    ensures fault { Ends small_read (codes "5") 2 (end.Fault fault.Range) }
    ensures position { cell_at (state_after small_read (codes "5") 2).now 0 0 cell.Unset
        ≡ cell.Int (pos 0) }
    ensures moved { cell_at (state_after small_read (codes "2") 2).now 0 0 cell.Unset
        ≡ cell.Int (pos 1) }
{}

/// Where there is no entry for them, Finish, Keep and Cut do nothing, and an Overlay pushes its
/// Body all the same.
#[tactic(auto, using(crate::proofs::Computed::nothing_to_keep_sound, crate::proofs::Computed::nothing_to_keep_finish, crate::proofs::Computed::nothing_to_keep_keep, crate::proofs::Computed::nothing_to_keep_cut, crate::proofs::Computed::nothing_to_keep_overlay))]
pub fn nothing_to_keep()
    ensures sound { code_fault nothing_held ≡ None }
    ensures finish { (step nothing_held [] (state_after nothing_held [] 1)).answer ≡ answer.Went }
    ensures keep { (step nothing_held [] (state_after nothing_held [] 2)).answer ≡ answer.Went }
    ensures cut { (step nothing_held [] (state_after nothing_held [] 3)).answer ≡ answer.Went }
    ensures overlay { (step nothing_held [] (state_after nothing_held [] 4)).answer
        ≡ answer.Chose 1 }
{}

/// A Body may be kept in any Forall below it.
#[tactic(auto, using(crate::proofs::Computed::body_kept_below_sound, crate::proofs::Computed::body_kept_below_answer, crate::proofs::Computed::body_kept_below_first, crate::proofs::Computed::body_kept_below_second))]
pub fn body_kept_below()
    ensures sound { code_fault kept_below ≡ None }
    ensures answer { (step kept_below [] (state_after kept_below [] 4)).answer ≡ answer.Cut 2 }
    ensures first { (entry_at (state_after kept_below [] 5).held 1).carry ≡ change_of 0 1 (pos 7)
        ∷ [] }
    ensures second { (entry_at (state_after kept_below [] 5).held 2).carry ≡ [] }
{}

/// The copy of a Forall has its mark slot as it was before; a pop of a Forall leaves it as a Done
/// and answers the height before.
#[tactic(auto, using(crate::proofs::Computed::forall_copies_old_mark_copy, crate::proofs::Computed::forall_copies_old_mark_now, crate::proofs::Computed::forall_copies_old_mark_popped, crate::proofs::Computed::forall_copies_old_mark_height))]
pub fn forall_copies_old_mark()
    ensures copy { cell_at (entry_at (state_after sum_carried [] 2).held 1).frames 0 6 cell.Unknown
        ≡ cell.Unset }
    ensures now { cell_at (state_after sum_carried [] 2).now 0 6 cell.Unknown ≡ cell.Mark 1 }
    ensures pops { (step sum_carried [] (state_after sum_carried [] 15)).answer
        ≡ answer.Popped 1 }
    ensures height { length (state_after sum_carried [] 16).held ≡ 1 }
{}

/// A place or a mark that was not set is a fault, and arguments are read before the cells are
/// counted.
#[tactic(auto, using(crate::proofs::Computed::unset_words_fault_place, crate::proofs::Computed::unset_words_fault_mark, crate::proofs::Computed::unset_words_fault_argument))]
pub fn unset_words_fault()
    ensures place { Ends (plain_main (I.Load 1 4 ∷ I.Return ∷ [])) [] 1 (end.Fault fault.Unknown) }
    ensures mark { Ends (plain_main (I.Cut 6 ∷ I.Return ∷ [])) [] 1 (end.Fault fault.Unknown) }
    ensures argument { Ends unset_argument [] 1 (end.Fault fault.Unknown) }
{}

/// A fault leaves the address at the next instruction, and an ended machine does not change.
#[tactic(auto, using(crate::proofs::Computed::ended_machine_stays_address, crate::proofs::Computed::ended_machine_stays_stays))]
pub fn ended_machine_stays()
    ensures address { (state_after both_unknown [] 3).at ≡ 3 }
    ensures stays { (state_after both_unknown [] 9) ≡ (state_after both_unknown [] 3) }
{}

/// A loop goes down too, and its counter never overflows.
#[tactic(auto, using(crate::proofs::Computed::loops_step_exactly_down, crate::proofs::Computed::loops_step_exactly_edge))]
pub fn loops_step_exactly()
    ensures down { Prints (loop_by (pos 5) (pos 1) (negsuc 1)) [] 12
        (decimal 5 ∷ decimal 3 ∷ decimal 1 ∷ []) }
    ensures edge { Ends (loop_by (pos (2 ^ 63 - 1)) (pos (2 ^ 63 - 1)) (pos 1)) [] 6 end.Succeeded }
{}

/// A procedure inside another reaches the variables and parameters round it by links.
#[tactic(auto, using(crate::proofs::ComputedLinks::links_run))]
pub fn links_run()
    ensures { LinksRun }
{}

/// The rules on links.
#[tactic(auto, using(crate::proofs::ComputedLinks::links_refused))]
pub fn links_refused()
    ensures { LinksRefused }
{}

/// The line of an address, and the address of the last instruction taken.
#[tactic(auto, using(crate::proofs::ComputedLinks::lines_tell))]
pub fn lines_tell()
    ensures { LinesTell }
{}

/// The texts of a code and of a run.
#[tactic(auto, using(crate::proofs::ComputedLinks::texts_tell))]
pub fn texts_tell()
    ensures { TextsTell }
{}
