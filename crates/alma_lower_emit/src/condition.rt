// The code of conditions.
ghost use Rattle.std.specs.Prelude.{◌≡◌, false, IfOk};
ghost use Rattle.alma_ir.specs.View.{test_of};
ghost use Rattle.alma_choice.specs.Emitted.{aim_jump};
ghost use Rattle.alma_lower_templates.specs.Slots.{is_simple};
ghost use Rattle.alma_lower_work.specs.Front.{around, front};
ghost use Rattle.alma_lower_work.specs.Puts.{PutsGuard};
ghost use Rattle.alma_lower_emit.specs.Inside.{EmitsStmts};

use crate::expression::emit_value;
use crate::plain::jump_of;
use crate::test::emit_test;
use alma_base::NoMemory;
use alma_code::Instr;
use alma_ir::{Stmt, Test};
use alma_lower_parts::{Scene, Work, begin_first, is_plain, slot_of};

/// A condition; the address of the jump where it has no alternative, which is still to be aimed.
/// One that cannot leave an alternative behind is tested by a jump.
#[cycle(emit)]
pub fn emit_guard<S>(
    work: &mut Work,
    scene: &Scene<'_>,
    line: u32,
    test: &Test,
    inside: &S,
) -> Result<u32, NoMemory>
where
    S: for<'a, 'b, 'c, 'd> Fn(&'a mut Work, &'b Scene<'c>, &'d [Stmt]) -> Result<(), NoMemory>,
    requires emits { EmitsStmts (S.IsAlwaysCallable inside.now) (S.post inside.now) }
    ensures guard { IfOk result (λ jump. PutsGuard (around scene.now) line (front work.old)
        (front work.new) (λ to xs. aim_jump xs jump to) (test_of test.now)) }
{
    if !is_plain(test) {
        return emit_barrier(work, scene, line, test, inside);
    }
    match test {
        Test::Value(value) => {
            let number = emit_value(work, scene, line, value, inside);
            jump_of(work, line, number)
        }
        _ => Err(NoMemory),
    }
}

// A condition behind a mark, of which the first alternative is taken.
#[cycle(emit)]
fn emit_barrier<S>(
    work: &mut Work,
    scene: &Scene<'_>,
    line: u32,
    test: &Test,
    inside: &S,
) -> Result<u32, NoMemory>
where
    S: for<'a, 'b, 'c, 'd> Fn(&'a mut Work, &'b Scene<'c>, &'d [Stmt]) -> Result<(), NoMemory>,
    requires emits { EmitsStmts (S.IsAlwaysCallable inside.now) (S.post inside.now) }
    ensures guard { is_simple (test_of test.now) ≡ false → IfOk result (λ jump. PutsGuard
        (around scene.now) line (front work.old) (front work.new) (λ to xs. aim_jump xs jump to)
        (test_of test.now)) }
{
    let (mark, choice) = begin_first(work, line)?;
    let done = emit_test(work, scene, line, test, inside);
    slot_of(work.then_add(done, line, Instr::Cut { mark }), choice)
}
