// Spellings of trees made by hand, and depths.
use alma_base::NoMemory;
use alma_spell::spell;
use alma_tree::{
    Block, Expr, Factor, Kind, Leaf, Module, Name, Primary, Simple, Stmt, Stmts, Term, depth,
};
use std::alloc::Global;

const NAME: Name = Name { node: 0, token: 0 };

// A value on the heap.
fn boxed<T: Drop>(alloc: Global, value: T) -> Result<Box<T>, NoMemory> {
    Ok(Box::new(alloc, value)?)
}

fn expr_of(alloc: Global, primary: Primary) -> Result<Expr, NoMemory> {
    let term = Term {
        node: 0,
        first: Factor::Plain { node: 0, primary },
        more: Vec::new(alloc),
    };
    let left = Simple {
        node: 0,
        sign: None,
        first: boxed(alloc, term)?,
        more: Vec::new(alloc),
    };
    Ok(Expr {
        node: 0,
        left,
        right: None,
    })
}

fn stmts_of(alloc: Global, first: Stmt) -> Result<Stmts, NoMemory> {
    Ok(Stmts {
        node: 0,
        first: boxed(alloc, first)?,
        more: Vec::new(alloc),
    })
}

fn module_of(alloc: Global, body: Option<Stmts>) -> Module {
    let block = Block {
        node: 0,
        decls: Vec::new(alloc),
        body,
    };
    Module {
        node: 0,
        name: NAME,
        block,
        end_name: NAME,
    }
}

/// The depth of a short spelling, where it is of these kinds.
fn depth_of(spelling: &[Kind], kinds: &[Kind]) -> Option<u32> {
    if spelling != kinds || spelling.len() > 99 {
        return None;
    }
    Some(depth(spelling))
}

/// The depth of the spelling of a module, where it is of these kinds.
fn spelled_depth(alloc: Global, module: &Module, kinds: &[Kind]) -> Option<u32> {
    match spell(alloc, module) {
        Ok(spelling) => depth_of(&spelling, kinds),
        Err(_error) => None,
    }
}

/// The same of the empty module.
fn empty_depth(alloc: Global) -> Option<u32> {
    let module = module_of(alloc, None);
    spelled_depth(alloc, &module, &EMPTY)
}

/// A module that returns a number.
fn returning(alloc: Global) -> Result<Module, NoMemory> {
    let number = Primary::Number {
        node: 0,
        number: Leaf { token: 5 },
    };
    let value = Some(expr_of(alloc, number)?);
    let body = stmts_of(alloc, Stmt::Return { node: 0, value })?;
    Ok(module_of(alloc, Some(body)))
}

const EMPTY: [Kind; 6] = [
    Kind::Module,
    Kind::Name,
    Kind::Semicolon,
    Kind::End,
    Kind::Name,
    Kind::Dot,
];

const RETURNING: [Kind; 9] = [
    Kind::Module,
    Kind::Name,
    Kind::Semicolon,
    Kind::Begin,
    Kind::Return,
    Kind::Number,
    Kind::End,
    Kind::Name,
    Kind::Dot,
];

/// The same of that module.
fn returning_depth(alloc: Global) -> Option<u32> {
    match returning(alloc) {
        Ok(module) => spelled_depth(alloc, &module, &RETURNING),
        Err(_error) => None,
    }
}

#[test]
fn modules_are_spelled(rt: HostRuntime) {
    let found = [empty_depth(rt.alloc()), returning_depth(rt.alloc())];
    assert_eq!(rt; found, [Some(1); 2]);
}

const CROSSED: [Kind; 4] = [
    Kind::Repeat,
    Kind::OpenBracket,
    Kind::CloseBracket,
    Kind::Until,
];

/// The depths of three lists.
fn depths() -> [u32; 3] {
    let opened = [Kind::CloseParen, Kind::OpenParen, Kind::OpenParen];
    [depth(&[]), depth(&opened), depth(&CROSSED)]
}

#[test]
fn lists_have_depths(rt: HostRuntime) {
    assert_eq!(rt; depths(), [0, 1, 2]);
}

#[test]
fn kinds_are_told_apart(rt: HostRuntime) {
    let same = [Kind::Name.is(Kind::Name), Kind::Less.is(Kind::LessEq)];
    assert_eq!(rt; same, [true, false]);
}
