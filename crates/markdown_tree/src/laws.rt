//! Laws on nodes of inline trees.
ghost use Rattle.markdown_tree.specs.ForestNodes.{NodesAreTrees};

/// The nodes of a forest's events are the trees of the forest, in order: for each tree `node`, `parent`, `first_child` and `next_sibling` of
/// `Tree` answer what the tree has, and the events from its Enter on are its own, followed by those of its later siblings.
pub fn nodes_are_trees()
    ensures { NodesAreTrees }
{}
