// The procedure that writes the line of the store.
ghost use Rattle.std.specs.Prelude.{◌≡◌, ◌++◌, suc, IfOk, map, codes, [], ◌∷◌};
ghost use Rattle.alma_ir.specs.Tree.{Stmts, more_arms, no_arms, a_desig, no_sels, Value, WriteText};
ghost use Rattle.alma_ir.specs.declared.phrase.Root.TheVariants as root;
ghost use Rattle.alma_ir.specs.View.{routine_of, global_of, stmts_list, stmt_of, arms_list, loop_of, expr_of, desig_of};
ghost use Rattle.alma_rules.specs.Parts.{append_stmts};
ghost use Rattle.alma_listing.specs.Lister as spec;
ghost use Rattle.alma_listing.specs.Inner.{space_before, write_global};

use alma_base::{NoMemory, Range};
use alma_ir::{
    Arm, Desig, Expr, Global as Variable, Loop, Root, Routine, Sel, Stmt, Test, WriteAs,
    stmts_inside,
};
use std::alloc::Global;

// The slots of the procedure: the number of the cell that is written, and the count and the limit
// of its loop.
const INDEX: u32 = 0;

const COUNT: u32 = 1;

const LIMIT: u32 = 2;

// How many they are.
const SLOTS: u32 = 3;

/// The procedure for these variables, at the line of the module.
pub(crate) fn list_procedure(
    alloc: Global,
    globals: &[Variable],
    line: u32,
) -> Result<Routine, NoMemory>
    ensures { IfOk result (λ r. routine_of r
        ≡ spec.list_procedure line (map global_of globals.now)) }
{
    let body = write_line(alloc, globals)?;
    let lines = Vec::from_elem(alloc, line, stmts_inside(&body)?)?;
    Ok(Routine {
        name: b"list".to_vec(alloc)?,
        params: Vec::new(alloc),
        result: None,
        declared: 0,
        slots: SLOTS,
        body,
        level: 1,
        outer: 0,
        line,
        lines,
    })
}

// The statements of the line: `{`, those of each global, and `}` with a line feed.
fn write_line(alloc: Global, globals: &[Variable]) -> Result<Vec<Stmt>, NoMemory>
    ensures { IfOk result (λ v. stmts_list v.items ≡ spec.write_line (map global_of globals.now)) }
{
    let mut body = one(alloc, text(alloc, b"{")?)?;
    for (place, global) in globals.iter().enumerate() {
        write_global(alloc, &mut body, space_before(place), global)?;
    }
    body.push(text(alloc, b"}\n")?)?;
    Ok(body)
}

// What stands before a global with so many in front of it.
fn space_before(place: usize) -> &'static [u8]
    ensures { result.now ≡ space_before place }
{
    if place == 0 { b"" } else { b" " }
}

// The statements of one global, behind those of the ones before.
fn write_global(
    alloc: Global,
    body: &mut Vec<Stmt>,
    before: &[u8],
    global: &Variable,
) -> Result<(), NoMemory>
    ensures { IfOk result (λ _. (rest : Stmts) → append_stmts (stmts_list body.new.items) rest
        ≡ append_stmts (stmts_list body.old.items)
        (write_global before.now (global_of global.now) rest)) }
{
    body.push(Stmt::WriteText(name_text(alloc, before, &global.name)?))?;
    if global.cells > 0 {
        body.push(Stmt::ForTo(cells_loop(alloc, global, global.cells - 1)?))?;
    }
    Ok(())
}

// The name of a global with what stands before it, and `=`.
fn name_text(alloc: Global, before: &[u8], name: &[u8]) -> Result<Vec<u8>, NoMemory>
    ensures { IfOk result (λ v. v.items ≡ before.now ++ name.now ++ codes "=") }
{
    let mut text = before.to_vec(alloc)?;
    text.extend_from_slice(name)?;
    text.push(b'=')?;
    Ok(text)
}

// The loop that writes the cells of a global, whose last has this number.
fn cells_loop(alloc: Global, global: &Variable, last: u32) -> Result<Loop, NoMemory>
    requires { global.now.cells ≡ suc last }
    ensures { IfOk result (λ x. loop_of x ≡ spec.cells_loop global.now.slot last) }
{
    let mut body = one(alloc, write_comma(alloc)?)?;
    body.push(write_cell(alloc, global, last)?)?;
    Ok(Loop {
        var: index(alloc),
        range: cell_range(last),
        counter: COUNT,
        limit: LIMIT,
        from: Expr::Const(0),
        to: Expr::Const(i64::from(last)),
        by: 1,
        body,
    })
}

// The statement that writes a comma before each cell but the first.
fn write_comma(alloc: Global) -> Result<Stmt, NoMemory>
    ensures { IfOk result (λ x. stmt_of x ≡ spec.write_comma) }
{
    let comma = one(alloc, text(alloc, b",")?)?;
    let arms = one_arm(alloc, Expr::Load(index(alloc)), comma)?;
    Ok(Stmt::If(arms, Vec::new(alloc)))
}

// The statement that writes the cell, or a question mark where it is unknown.
fn write_cell(alloc: Global, global: &Variable, last: u32) -> Result<Stmt, NoMemory>
    requires { global.now.cells ≡ suc last }
    ensures { IfOk result (λ x. stmt_of x ≡ spec.write_cell global.now.slot last) }
{
    let number = Stmt::WriteExpr(Expr::Load(cell(alloc, global, last)?), WriteAs::Int);
    let number = one(alloc, number)?;
    let arms = one_arm(alloc, Expr::Known(cell(alloc, global, last)?), number)?;
    let unknown = one(alloc, text(alloc, b"?")?)?;
    Ok(Stmt::If(arms, unknown))
}

// The cell whose number stands in the slot of the index.
fn cell(alloc: Global, global: &Variable, last: u32) -> Result<Desig, NoMemory>
    requires { global.now.cells ≡ suc last }
    ensures { IfOk result (λ d. desig_of d ≡ spec.cell_of_global global.now.slot last) }
{
    let sel = Sel::Index(Expr::Load(index(alloc)), cell_range(last), 1);
    Ok(Desig {
        root: Root::Global(global.slot),
        cells: global.cells,
        sels: one(alloc, sel)?,
    })
}

// The slot of the number of the cell.
fn index(alloc: Global) -> Desig
    ensures { desig_of result ≡ a_desig (root.Local 0) 1 no_sels }
{
    Desig {
        root: Root::Local(INDEX),
        cells: 1,
        sels: Vec::new(alloc),
    }
}

// The numbers of the cells, up to the last.
fn cell_range(last: u32) -> Range
    ensures { result ≡ spec.cell_range last }
{
    Range {
        low: 0,
        high: i64::from(last),
    }
}

// The arms of an IF with one condition.
fn one_arm(alloc: Global, cond: Expr, body: Vec<Stmt>) -> Result<Vec<Arm>, NoMemory>
    ensures { IfOk result (λ v. arms_list v.items
        ≡ more_arms (Value (expr_of cond)) (stmts_list body.items) no_arms) }
{
    one(
        alloc,
        Arm {
            cond: Test::Value(cond),
            body,
        },
    )
}

// The statement that writes a text.
fn text(alloc: Global, bytes: &[u8]) -> Result<Stmt, NoMemory>
    ensures { IfOk result (λ x. stmt_of x ≡ WriteText bytes.now) }
{
    Ok(Stmt::WriteText(bytes.to_vec(alloc)?))
}

// A list of one item.
fn one<T: Drop>(alloc: Global, item: T) -> Result<Vec<T>, NoMemory>
    ensures { IfOk result (λ v. v.items ≡ item ∷ []) }
{
    let mut list = Vec::with_capacity(alloc, 1)?;
    list.push(item)?;
    Ok(list)
}
