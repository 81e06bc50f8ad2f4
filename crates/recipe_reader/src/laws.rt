ghost use Rattle.recipe_reader.specs.Backs.{IsBack};
ghost use Rattle.recipe_reader.specs.OneRecipe.{IsOneRecipe, IsOneFault, HasNoFault};
ghost use Rattle.recipe_reader.specs.SetLaws.{IsOnePreferred, HasPreferred, DependsOnElements};
ghost use Rattle.recipe_reader.specs.Sound.{ReadsSound};

use tree_core::tree_laws;

/// Laws of reading a recipe. It does nothing.
pub fn recipe_laws()
    ensures one_recipe { IsOneRecipe }
    ensures one_fault { IsOneFault }
    ensures no_fault { HasNoFault }
    ensures sound { ReadsSound }
    ensures boot_back { IsBack }
{
    tree_laws();
}

/// Laws of valid and preferred sets. It does nothing.
pub fn set_laws()
    ensures one { IsOnePreferred }
    ensures some { HasPreferred }
    ensures elements { DependsOnElements }
{}
