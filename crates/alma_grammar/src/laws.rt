// Laws of the grammar, as contracts of functions without work.
ghost use Rattle.alma_grammar.specs.Worked.Examples.{ExamplesAreReadSo};
ghost use Rattle.alma_grammar.specs.Laws.{EachPrefixIsFinished, EachProgramIsRead, EachTreeIsRead, ExactDepth, ExactEnds, ExactPlace, OneSpelling};

/// Each tree's spelling is read to its end, however deep.
pub fn each_tree_is_read()
    ensures read { EachTreeIsRead }
{}

/// The tokens read so far, followed by the shortest rest of each part that is still open, are the
/// spelling of a tree.
pub fn each_front_is_finished()
    ensures finished { EachPrefixIsFinished }
{}

/// Reading comes to the end at the programs and at nothing else.
pub fn each_program_is_read()
    ensures read { EachProgramIsRead }
{}

/// Where reading ends at an unexpected token, some tree's spelling begins with the tokens before
/// it, and none with them and it.
pub fn exact_place()
    ensures exact { ExactPlace }
{}

/// The depth passes its limit at no token before the one that is refused, and passes it there where
/// that is too deep.
pub fn exact_depth()
    ensures exact { ExactDepth }
{}

/// No two trees have one spelling, where the numbers of their nodes and leaves are left aside.
pub fn one_spelling()
    ensures once { OneSpelling }
{}

/// How reading some short lists of kinds ends.
pub fn examples_are_read_so()
    ensures told { ExamplesAreReadSo }
{}

/// Reading a list of kinds ends in what is so of it by trees and depths alone, and nothing else is
/// so of it.
pub fn exact_ends()
    ensures exact { ExactEnds }
{}
