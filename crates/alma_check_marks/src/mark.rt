// Marks, one behind another.
ghost use Rattle.std.specs.Prelude.{◌≡◌, IsOk, OnOk};
ghost use Rattle.alma_rules.specs.Places as places;
ghost use Rattle.alma_check_marks.specs.Marking.{begun, marks_of, one_more, loop_head, two_words, HasNode, Walks};

use alma_base::NoMemory;
use std::alloc::Global;

/// A node with its first token, or the first token of a statement of the resolved program.
#[derive(Clone, Copy)]
pub enum Mark {
    Node { node: u32, token: u32 },
    Statement { token: u32 },
}

/// The marks of what has been walked, and the token behind it.
#[derive(Drop)]
pub struct Marks {
    pub marks: Vec<Mark>,
    pub end: u32,
}

/// Where nothing has been walked yet, in front of a token.
pub fn marks_from(alloc: Global, end: u32) -> Marks
    ensures { marks_of result ≡ places.stay end }
{
    Marks {
        marks: Vec::new(alloc),
        end,
    }
}

impl Marks {
    /// Goes on past one token.
    pub fn token(&mut self) -> Result<(), NoMemory>
        ensures { Walks result self.old self.new places.token }
    {
        match self.end.checked_add(1) {
            None => Err(NoMemory),
            Some(end) => {
                self.end = end;
                Ok(())
            }
        }
    }

    /// Marks a node of what has been walked since a token.
    pub fn node(&mut self, node: u32, token: u32) -> Result<(), NoMemory>
        ensures { OnOk result (HasNode (marks_of self.old) (marks_of self.new) node token) }
    {
        self.marks.push(Mark::Node { node, token })?;
        Ok(())
    }

    /// Marks a statement that begins at a token.
    pub(crate) fn statement(&mut self, token: u32) -> Result<(), NoMemory>
        ensures { Walks result self.old self.new (places.statement_of token) }
    {
        self.marks.push(Mark::Statement { token })?;
        Ok(())
    }

    /// A statement that begins here, with its first word.
    pub(crate) fn begin(&mut self) -> Result<(), NoMemory>
        ensures { Walks result self.old self.new begun }
    {
        let at = self.end;
        self.statement(at)?;
        self.token()
    }

    /// The head of a FOR or SOME: what begins it, the variable and the word behind it.
    pub(crate) fn opening(&mut self, variable: u32) -> Result<(), NoMemory>
        ensures { Walks result self.old self.new (loop_head variable) }
    {
        self.begin()?;
        self.leaf(variable)?;
        self.token()
    }

    /// A word and the bracket behind it.
    pub(crate) fn tokens(&mut self) -> Result<(), NoMemory>
        ensures { Walks result self.old self.new two_words }
    {
        self.token()?;
        self.token()
    }

    /// A comma, and behind it one more statement of a READ, WRITE or WRITELN.
    pub(crate) fn item(&mut self, token: u32) -> Result<(), NoMemory>
        ensures { Walks result self.old self.new (one_more token) }
    {
        self.token()?;
        self.statement(token)
    }

    /// A node of nothing.
    pub fn empty(&mut self, node: u32) -> Result<(), NoMemory>
        ensures { Walks result self.old self.new (places.whole node places.stay) }
    {
        let at = self.end;
        self.node(node, at)
    }

    /// A node of one token.
    pub fn leaf(&mut self, node: u32) -> Result<(), NoMemory>
        ensures { Walks result self.old self.new (places.whole node places.token) }
    {
        let at = self.end;
        self.token()?;
        self.node(node, at)
    }
}

/// One token behind a part, which is looked at here.
pub(crate) fn token_behind(walked: Result<(), NoMemory>, marks: &mut Marks) -> Result<(), NoMemory>
    ensures done { OnOk result (IsOk walked) }
    ensures walks { Walks result marks.old marks.new places.token }
{
    walked?;
    marks.token()?;
    Ok(())
}

/// A node that ends behind its last part.
pub(crate) fn node_behind(
    walked: Result<(), NoMemory>,
    marks: &mut Marks,
    node: u32,
    token: u32,
) -> Result<(), NoMemory>
    ensures done { OnOk result (IsOk walked) }
    ensures noted { OnOk result (HasNode (marks_of marks.old) (marks_of marks.new) node token) }
{
    walked?;
    marks.node(node, token)?;
    Ok(())
}

/// A node that ends with a token behind its last part.
pub(crate) fn closed(
    walked: Result<(), NoMemory>,
    marks: &mut Marks,
    node: u32,
    token: u32,
) -> Result<(), NoMemory>
    ensures done { OnOk result (IsOk walked) }
    ensures noted { OnOk result
        (HasNode (places.step_on (marks_of marks.old) places.token) (marks_of marks.new) node
        token) }
{
    walked?;
    marks.token()?;
    marks.node(node, token)?;
    Ok(())
}

/// The first token of a node.
pub fn first_token(marks: &Marks, node: u32) -> u32
    ensures { result ≡ places.node_token node (marks_of marks.now).marks }
{
    for mark in &marks.marks {
        if let Mark::Node {
            node: marked,
            token,
        } = mark
            && *marked == node
        {
            return *token;
        }
    }
    0
}
