ghost use Rattle.std.specs.Prelude.{◌≡◌, ◌↔◌, option_map, IsTrue};
ghost use Rattle.serde_json.specs.Find.{get as member_of, as_str};
ghost use Rattle.tree_core.specs.Regular.{IsRegular};
ghost use Rattle.tree_core.specs.View.{view};
ghost use Rattle.tree_core.specs.Parts.{present as where_present, IsObject};

use crate::get::{field_found, field_named};
use crate::tree::Tree;
use nuc_base::Text;

impl Tree {
    /// The value of a key, where this is an object that has it.
    pub fn member(&self, key: &str) -> Option<&Tree>
        ensures { option_map (λ t. view t.now) result ≡ member_of key.now (view self.now) }
    {
        let Tree::Fields(fields) = self else {
            return None;
        };
        field_named(fields, key)
    }

    /// The same of a regular tree, whose keys rise: they are looked for by halves.
    pub fn find(&self, key: &str) -> Option<&Tree>
        requires { IsRegular (view self.now) }
        ensures { option_map (λ t. view t.now) result ≡ member_of key.now (view self.now) }
    {
        let Tree::Fields(fields) = self else {
            return None;
        };
        field_found(fields, key)
    }

    /// The value of a key, where it is there and not null.
    pub fn present(&self, key: &str) -> Option<&Tree>
        ensures { option_map (λ t. view t.now) result
            ≡ where_present (member_of key.now (view self.now)) }
    {
        match self.member(key) {
            Some(Tree::Null) | None => None,
            Some(value) => Some(value),
        }
    }

    pub fn is_object(&self) -> bool
        ensures { IsTrue result ↔ IsObject (view self.now) }
    {
        matches!(self, Tree::Fields(_))
    }

    /// The text, where this is one.
    pub fn as_text(&self) -> Option<&Text>
        ensures { option_map (λ t. t.now) result ≡ as_str (view self.now) }
    {
        if let Tree::Text(text) = self {
            Some(text)
        } else {
            None
        }
    }
}
