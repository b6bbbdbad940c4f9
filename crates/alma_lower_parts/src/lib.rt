//! Parts of templates, and forms that are put whole.
#![tactic(auto)]

mod back;
mod call;
mod case;
mod choice;
mod form;
mod label;
mod leaf;
mod loops;
mod pass;

pub use alma_lower_work::{
    FirstOperand, Scene, Stand, Taken, Work, constant, ends_alone, hold_at, is_simple, is_straight,
    op_instr, own_first, own_place, own_stand, own_value, put_at, put_back, put_cmp, put_fit,
    put_function, put_links, put_neg, put_result_fit, put_root, put_truth, put_unequal, read_instr,
    slot_of, stay_at, straight_slot, taken_by, turned_test, unequal, write_instr,
};
pub use back::{put_held, put_held_back};
pub use call::{Handover, begin_call, take_result};
pub use case::{Labels, Miss, end_arm, end_dead, has_dead, then_take_labels};
pub use choice::{
    begin_commit, begin_first, begin_forall, end_both, end_first, end_not, then_begin_each,
};
pub use form::{
    begin_place, begin_while, end_repeat, end_truth, put_bind, put_chr, put_index, put_number,
    put_read, put_return, put_set, put_unify,
};
pub use label::put_labels;
pub use leaf::{emit_const, emit_field, emit_line, emit_text, is_plain, slot_past, stand_at};
pub use loops::{Bounds, Counts, begin_for, begin_some, end_for, put_count};
pub use pass::{begin_loop, pass_stmts, pass_unlabelled};
