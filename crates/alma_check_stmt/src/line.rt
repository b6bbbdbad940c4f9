// The lines of a source, each found by a look.
ghost use Rattle.std.specs.Prelude.{◌≡◌, ◌≤◌, ℕ, List, length, map, IfOk};
ghost use Rattle.alma_base.specs.Limits.{source_limit};
ghost use Rattle.alma_scan.specs.Places.{line_at};
ghost use Rattle.alma_rules.specs.Scene as scenes;
ghost use Rattle.alma_rules.specs.Modules as modules;
ghost use Rattle.alma_rules.specs.View as view;
ghost use Rattle.alma_check_stmt.specs.Inner.Lined.{AreLines};

use alma_base::NoMemory;
use alma_check_marks::statement_tokens;
use alma_check_type::Reader;
use alma_tree::Stmts;
use std::alloc::Global;
use std::marker::Model;

/// The line of each byte of a source, and of its end.
#[derive(Drop)]
pub struct Lines<'e> {
    source: &'e [u8],
    lines: Vec<u32>,
}

impl<'e> Model for Lines<'e> {
    ghost Value = { List ℕ };

    ghost view = { λ l. l.source.now };

    ghost invariant = { λ l. AreLines l.source.now l.lines.items };
}

// The line of each byte, and of the end.
fn lines_of(alloc: Global, source: &[u8]) -> Result<Vec<u32>, NoMemory>
    requires { length source.now ≤ source_limit }
    ensures { IfOk result (λ lines. AreLines source.now lines.items) }
{
    let mut lines = Vec::new(alloc);
    let mut line: u32 = 1;
    for byte in source {
        lines.push(line)?;
        if *byte == b'\n' {
            line += 1;
        }
    }
    lines.push(line)?;
    Ok(lines)
}

impl<'e> Lines<'e> {
    /// The lines of a source.
    pub fn new(alloc: Global, source: &'e [u8]) -> Result<Lines<'e>, NoMemory>
        requires { length source.now ≤ source_limit }
        ensures { IfOk result (λ lines. lines ≡ source.now) }
    {
        let lines = lines_of(alloc, source)?;
        Ok(Lines { source, lines })
    }

    /// The line of an offset; behind the end that of the end.
    pub fn at(&self, offset: usize) -> u32
        ensures { result ≡ line_at self.now offset }
    {
        let last = self.source.len();
        let near = if offset < last { offset } else { last };
        self.lines[near]
    }
}

/// The line of a token.
pub fn line_of(reader: &Reader, lines: &Lines, token: u32) -> u32
    requires { lines.now ≡ reader.now.source }
    ensures { result ≡ scenes.line_of reader.now token }
{
    match reader.env().tokens.get(token as usize) {
        Some(token) => lines.at(token.start),
        None => lines.at(0),
    }
}

// The lines of tokens.
fn lines_of_tokens(
    alloc: Global,
    reader: &Reader,
    lines: &Lines,
    tokens: &[u32],
) -> Result<Vec<u32>, NoMemory>
    requires { lines.now ≡ reader.now.source }
    ensures { IfOk result (λ v. v.items ≡ map (scenes.line_of reader.now) tokens.now) }
{
    let mut found = Vec::new(alloc);
    for token in tokens {
        found.push(line_of(reader, lines, *token))?;
    }
    Ok(found)
}

/// The lines of the statements of a body in front of a token.
pub fn body_lines(
    alloc: Global,
    reader: &Reader,
    lines: &Lines,
    end: u32,
    body: &Option<Stmts>,
) -> Result<Vec<u32>, NoMemory>
    requires { lines.now ≡ reader.now.source }
    ensures { IfOk result (λ v. v.items ≡ modules.body_lines reader.now end
        (view.body_of body.now)) }
{
    match body {
        None => Ok(Vec::new(alloc)),
        Some(body) => {
            let tokens = statement_tokens(alloc, body, end)?;
            lines_of_tokens(alloc, reader, lines, &tokens)
        }
    }
}
