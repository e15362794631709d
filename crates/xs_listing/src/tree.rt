ghost use Rattle.std.specs.Prelude.{IfOk};
ghost use Rattle.xs_gram.specs.{InLang, HasTree, IsBuilt};
ghost use Rattle.xs_tree.specs.{common_of};
ghost use Rattle.xs_forest_laws.specs.{IsForestOf};

use crate::marks::mark_rows;
use crate::nodes::number_rows;
use std::alloc::Global;
use xs_class::{Memory, Word};
use xs_forest_laws::Grown;
use xs_gram::Gram;
use xs_tree::{Builder, Tree};

/// The common tree of one of the document's derivations, that by the first alternative of each row.
///
/// Each row of a nonterminal is one part, however often its tree stands in the whole, so that the
/// work is linear in the rows and the document even where the tree is larger than any memory.
pub fn one_tree(alloc: Global, grown: &Grown<'_>, g: &Gram, doc: &Word) -> Result<Tree, Memory>
    requires built { IsBuilt g.now }
    requires forest { IsForestOf g.now doc.now grown.now.forest grown.now.root }
    requires in_language { InLang g.now doc.now }
    ensures { IfOk result (λ tree. HasTree g.now doc.now (common_of tree)) }
{
    let marks = mark_rows(alloc, &grown.forest, grown.root)?;
    let mut builder = Builder::new(alloc)?;
    let numbers = number_rows(alloc, g, doc, &grown.forest, &marks, &mut builder)?;
    Ok(builder.finish(numbers[grown.root as usize]))
}
