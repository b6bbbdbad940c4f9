// Whether a RETURN stands in statements.
ghost use Rattle.std.specs.Prelude.{◌≡◌};
ghost use Rattle.alma_ir.specs.View.{stmts_list, stmt_of, arms_list, cases_list, branches_list};
ghost use Rattle.alma_listing.specs.Inner.{stmts_return, stmt_returns, arms_return, cases_return, branches_return};

use alma_ir::{Arm, Branch, CaseArm, Stmt};

/// A RETURN stands in the statements: in those of a checked program at any depth, since none stands
/// inside a test, a FORALL or a COMMIT there.
#[cycle(returns)]
pub(crate) fn has_return(body: &[Stmt]) -> bool
    ensures { result ≡ stmts_return (stmts_list body.now) }
{
    for stmt in body {
        if is_returning(stmt) {
            return true;
        }
    }
    false
}

#[cycle(returns)]
fn is_returning(stmt: &Stmt) -> bool
    ensures { result ≡ stmt_returns (stmt_of stmt.now) }
{
    match stmt {
        Stmt::Return(_) => true,
        Stmt::If(arms, rest) => arms_return(arms) || has_return(rest),
        Stmt::While(_, body) => has_return(body),
        Stmt::Repeat(body, _) => has_return(body),
        Stmt::ForTo(each) => has_return(&each.body),
        Stmt::SomeOf(each) => has_return(&each.body),
        Stmt::Case(_, arms, rest) => match rest {
            None => cases_return(arms),
            Some(rest) => cases_return(arms) || has_return(rest),
        },
        Stmt::Either(branches) => branches_return(branches),
        Stmt::Test(_) => false,
        Stmt::Assign(_, _, _) => false,
        Stmt::CopyCells(_, _) => false,
        Stmt::Forall(_, _) => false,
        Stmt::Commit(_) => false,
        Stmt::Read(_, _, _) => false,
        Stmt::WriteExpr(_, _) => false,
        Stmt::WriteText(_) => false,
        Stmt::WriteLine => false,
    }
}

#[cycle(returns)]
fn arms_return(arms: &[Arm]) -> bool
    ensures { result ≡ arms_return (arms_list arms.now) }
{
    for arm in arms {
        if has_return(&arm.body) {
            return true;
        }
    }
    false
}

#[cycle(returns)]
fn cases_return(arms: &[CaseArm]) -> bool
    ensures { result ≡ cases_return (cases_list arms.now) }
{
    for arm in arms {
        if has_return(&arm.body) {
            return true;
        }
    }
    false
}

#[cycle(returns)]
fn branches_return(branches: &[Branch]) -> bool
    ensures { result ≡ branches_return (branches_list branches.now) }
{
    for branch in branches {
        if has_return(&branch.body) {
            return true;
        }
    }
    false
}
