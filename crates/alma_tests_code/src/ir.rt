// The size of a program made by hand.
use alma_ir::{Expr, Program, Routine, Stmt, Test, size};
use std::alloc::Global;

// Whether a list had room for a value.
fn put<T: Drop>(list: &mut Vec<T>, value: T) -> bool {
    list.push(value).is_ok()
}

// Puts a TRUE and a WRITELN into a body.
fn put_body(body: &mut Vec<Stmt>) -> bool {
    put(body, Stmt::Test(Test::Value(Expr::Const(1)))) && put(body, Stmt::WriteLine)
}

// Puts a routine with such a body and these lines into a list.
fn put_routine(alloc: Global, routines: &mut Vec<Routine>, lines: Vec<u32>) -> bool {
    let mut body = Vec::new(alloc);
    let is_full = put_body(&mut body);
    let routine = Routine {
        name: Vec::new(alloc),
        params: Vec::new(alloc),
        result: None,
        declared: 0,
        slots: 1,
        body,
        level: 0,
        outer: 0,
        line: 1,
        lines,
    };
    put(routines, routine) && is_full
}

// The size of a program of such a routine, where memory is ample.
fn true_size(alloc: Global) -> Option<u64> {
    let lines = vec![in alloc; 1, 1].ok()?;
    let mut routines = Vec::new(alloc);
    let is_full = put_routine(alloc, &mut routines, lines);
    let program = Program {
        name: Vec::new(alloc),
        globals: Vec::new(alloc),
        routines,
    };
    is_full.then_some(size(&program))
}

#[test]
fn a_true_is_three_nodes(rt: HostRuntime) {
    assert_eq!(rt; true_size(rt.alloc()), Some(80));
}
