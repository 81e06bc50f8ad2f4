ghost use Rattle.std.specs.Prelude.{◌≡◌, IfOk};
ghost use Rattle.workload.specs.Names.{component_name as name_of_component, version_text as text_of_version, group_name as name_of_group};
ghost use Rattle.workload.specs.Names.{deployment_id as id_of_deployment};

use nuc_base::{NoMemory, Text};
use std::alloc::Global;

/// What every dependency and every root asks.
pub(crate) const REQUIREMENT: &str = "^1.0.0";

pub(crate) fn component_name(alloc: Global, component: u64) -> Result<Text, NoMemory>
    ensures { IfOk result (λ t. t ≡ name_of_component component) }
{
    let tens = component / 10;
    let ones = component % 10;
    Ok(Text::new(format!(in alloc; "w.c{tens}{ones}")?))
}

pub(crate) fn version_text(alloc: Global, minor: u64) -> Result<Text, NoMemory>
    ensures { IfOk result (λ t. t ≡ text_of_version minor) }
{
    Ok(Text::new(format!(in alloc; "1.{minor}.0")?))
}

pub(crate) fn group_name(alloc: Global, group: u64) -> Result<Text, NoMemory>
    ensures { IfOk result (λ t. t ≡ name_of_group group) }
{
    Ok(Text::new(format!(in alloc; "g{group}")?))
}

pub(crate) fn deployment_id(alloc: Global, number: u64) -> Result<Text, NoMemory>
    ensures { IfOk result (λ t. t ≡ id_of_deployment number) }
{
    Ok(Text::new(format!(in alloc; "w{number}")?))
}
