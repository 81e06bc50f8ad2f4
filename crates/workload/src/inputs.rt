ghost use Rattle.std.specs.Prelude.{◌≡◌, IfOk};
ghost use Rattle.workload.specs.Inputs.{recipes_from, documents_from};

use crate::documents::{COMPONENTS, draw_documents};
use crate::generator::Generator;
use crate::recipes::draw_recipes;
use nuc_base::{Bytes, List, NoMemory};
use std::alloc::Global;

/// How many documents there are.
const DEPLOYMENTS: u64 = 32;

/// What a workload runs on.
#[derive(Drop)]
pub struct Drawn {
    /// The recipes, by component and version, each a compact JSON text.
    pub recipes: List<Bytes>,
    /// The documents in the order in which they are deployed, each a compact JSON text.
    pub documents: List<Bytes>,
    /// The generator's state after all of these were drawn.
    pub state: u64,
}

/// Draws the 24 components and the 32 documents that a seed gives.
pub fn draw(alloc: Global, seed: u64) -> Result<Drawn, NoMemory>
    ensures recipes { IfOk result (λ d. d.recipes ≡ (recipes_from seed).value) }
    ensures documents { IfOk result (λ d. d.documents ≡ (documents_from seed).value) }
    ensures state { IfOk result (λ d. d.state ≡ (documents_from seed).state) }
{
    let mut generator = Generator { state: seed };
    let recipes = draw_recipes(alloc, &mut generator, COMPONENTS)?;
    let documents = draw_documents(alloc, &mut generator, DEPLOYMENTS)?;
    Ok(Drawn {
        recipes: List::new(recipes),
        documents: List::new(documents),
        state: generator.state,
    })
}
