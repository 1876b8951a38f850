//! Laws of the grammar, each the contract of a function without a body.
ghost use Rattle.evp_expr.specs.Laws.{OneTree, TreeOrFault, OneFault, EachTextIsAnswered};
ghost use Rattle.evp_expr.specs.Laws.{ReadsBack, TreesAreSound};

/// A text has one tree at most: the grammar isn't ambiguous.
pub fn one_tree()
    ensures { OneTree }
{}

/// A text that has a tree has no fault.
pub fn tree_or_fault()
    ensures { TreeOrFault }
{}

/// A text has one fault at most, the first.
pub fn one_fault()
    ensures { OneFault }
{}

/// Each text has a tree or a fault.
pub fn each_text_is_answered()
    ensures { EachTextIsAnswered }
{}

/// In a tree that a text has, a path stands wherever one should, and 390 values are enough to
/// evaluate it.
pub fn trees_are_sound()
    ensures { TreesAreSound }
{}

/// The text of a tree, printed with all its parentheses, is read back as that tree: what can be
/// printed is never refused, where it has at most 4,096 bytes and opens at most 64 levels.
pub fn reads_back()
    ensures { ReadsBack }
{}
