// An environment to which declarations are added.
ghost use Rattle.std.specs.Prelude.{◌≡◌, ◌<◌, OnOk, IfOk, length, replicate, None};
ghost use Rattle.alma_names.specs.Shapes.{plain_of, NamesOnlyBelow, HasIndex, HasCount, HasBase, HasDistinctNames};
ghost use Rattle.alma_scan.specs.Scanned.{lexemes};
ghost use Rattle.alma_rules.specs.Scene as scenes;
ghost use Rattle.alma_rules.specs.Scene.{Scene};
ghost use Rattle.alma_rules.specs.Types as types;
ghost use Rattle.alma_rules.specs.View.{view_name};
ghost use Rattle.alma_check_rules.specs.Views.{scene_of, somewhere, headings_view};
ghost use Rattle.alma_check_type.specs.Told.{IsCounted, formed_of};
ghost use Rattle.alma_check_type.specs.Outermost.{outermost};

use crate::reading::ShapeOrLimit;
use alma_base::NoMemory;
use alma_check_rules::{Env, Heading, Returns};
use alma_names::{DeclareError, Entry, Scopes, Shape, ShapeError, Shapes};
use alma_scan::Token;
use alma_tree::Name;
use indexmap::IndexMap;
use std::alloc::Global;
use std::marker::Model;

/// The number of names that stand outside each module: three types, TRUE and FALSE.
const PREDECLARED_COUNT: usize = 5;

/// An environment whose names are counted, so that it is known when their numbers run out.
#[derive(Drop)]
pub struct Reader<'e, 's> {
    pub(crate) env: Env<'e, 's>,
    // The number of names in each block below the top one.
    pub(crate) below: Vec<usize>,
    // The number of names in the top block.
    pub(crate) top: usize,
    // The number of names in all blocks.
    pub(crate) all: usize,
}

impl<'e, 's> Model for Reader<'e, 's> {
    ghost Value = { Scene };

    ghost view = { λ r. scene_of r.env somewhere };

    ghost invariant = { λ r. IsCounted r.below.items r.top r.all r.env.scopes };
}

// No heading of so many routines.
fn no_headings(alloc: Global, routines: u32) -> Result<Vec<Option<Heading>>, NoMemory>
    ensures { IfOk result (λ headings. headings_view headings.items ≡ replicate routines None) }
{
    let mut headings: Vec<Option<Heading>> = Vec::new(alloc);
    for _routine in 0..routines {
        headings.push(None)?;
    }
    Ok(headings)
}

impl<'e, 's> Reader<'e, 's> {
    /// Where nothing is declared but the names that stand outside each module, and no heading of so
    /// many routines is read yet.
    pub fn new(
        alloc: Global,
        source: &'e [u8],
        tokens: &'e [Token<'s>],
        routines: u32,
    ) -> Result<Reader<'e, 's>, NoMemory>
        ensures { IfOk result (λ reader. reader ≡ outermost source.now (lexemes tokens.now)
            routines) }
    {
        let headings = no_headings(alloc, routines)?;
        let shapes = Shapes::new(alloc)?;
        let scopes = Scopes::new(alloc)?;
        let env = Env {
            source,
            tokens,
            shapes,
            scopes,
            headings,
            declares: IndexMap::new(alloc),
            routine: 0,
            returns: Returns::Nothing,
        };
        Ok(Reader {
            env,
            below: Vec::new(alloc),
            top: PREDECLARED_COUNT,
            all: PREDECLARED_COUNT,
        })
    }

    /// The environment as it is.
    pub fn env(&self) -> &Env<'e, 's>
        ensures { scene_of result.now somewhere ≡ self.now }
    {
        &self.env
    }

    /// Whether a name is the first of its spelling in the text of its block.
    pub fn is_first(&self, name: &Name) -> bool
        ensures { result ≡ scenes.is_first self.now (view_name name.now) }
    {
        match self.env.declares.get(self.env.text(name.token)) {
            Some(token) => *token == name.token,
            None => true,
        }
    }

    /// Declares a name in the top block, where it is the first of its spelling in the text of the
    /// block.
    pub fn declare(
        &mut self,
        alloc: Global,
        name: &Name,
        from: u32,
        entry: Entry,
    ) -> Result<(), NoMemory>
        ensures { OnOk result (self.new ≡ types.declare_name
            self.old (view_name name.now) from entry) }
    {
        if !self.is_first(name) {
            return Ok(());
        }
        if self.all > u32::MAX as usize {
            return Err(NoMemory);
        }
        let text = self.env.text(name.token);
        match self.env.scopes.declare(alloc, text, from, entry) {
            Ok(_id) => {
                self.top += 1;
                self.all += 1;
                Ok(())
            }
            Err(DeclareError::Twice(_)) | Err(DeclareError::Memory) => Err(NoMemory),
        }
    }

    /// Adds a shape to the table, where it is not past a limit.
    pub fn add(&mut self, alloc: Global, shape: Shape) -> Result<ShapeOrLimit, NoMemory>
        requires names { NamesOnlyBelow (length self.old.shapes) (plain_of shape) }
        requires index { HasIndex self.old.shapes (plain_of shape) }
        requires count { HasCount (plain_of shape) }
        requires base { HasBase self.old.shapes (plain_of shape) }
        requires fields { HasDistinctNames (plain_of shape) }

        ensures { IfOk result (λ f. (self.new, formed_of f) ≡ types.add_shape
            self.old (plain_of shape)) }
    {
        if self.env.shapes.len() > u32::MAX as usize {
            return Err(NoMemory);
        }
        match self.env.shapes.add(alloc, shape) {
            Ok(id) => Ok(ShapeOrLimit::Shape(id.0)),
            Err(ShapeError::TooLarge) => Ok(ShapeOrLimit::TooLarge),
            Err(ShapeError::Memory) => Err(NoMemory),
        }
    }
}
