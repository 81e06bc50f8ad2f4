// Ways through objects alone.
ghost use Rattle.std.specs.Prelude.{◌≡◌, option_map};
ghost use Rattle.tree_core.specs.Regular.{IsRegular};
ghost use Rattle.tree_core.specs.View.{view};
ghost use Rattle.config_ops.specs.Reset.{key_node, is_open as is_an_open_way};

use nuc_base::Text;
use tree_core::Tree;

/// The node that the keys lead to, through objects alone. Each key is looked for by halves.
pub(crate) fn node_of<'t>(tree: &'t Tree, keys: &[Text]) -> Option<&'t Tree>
    requires { IsRegular (view tree.now) }
    ensures { option_map (λ t. view t.now) result ≡ key_node keys.now (view tree.now) }
{
    let mut here = tree;
    for key in keys {
        here = here.find(key.as_str())?;
    }
    Some(here)
}

/// Whether each proper prefix of the keys that names a node names an object.
pub(crate) fn is_open(tree: &Tree, keys: &[Text]) -> bool
    requires { IsRegular (view tree.now) }
    ensures { result ≡ is_an_open_way keys.now (view tree.now) }
{
    let mut here = tree;
    for key in keys {
        if !matches!(here, Tree::Fields(_)) {
            return false;
        }
        match here.find(key.as_str()) {
            Some(below) => here = below,
            None => return true,
        }
    }
    true
}
