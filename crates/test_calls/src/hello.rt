// The first component of the developer guide.
use crate::{files_of, recipes_of};
use library_core::MemoryLibrary;
use nuc_base::List;
use std::alloc::Global;
use std::test::Fail;

/// Its recipe.
const RECIPE: &str = concat!(
    r#"{"RecipeFormatVersion":"2020-01-25","ComponentName":"com.example.HelloWorld","ComponentVersion":"1.0.0","ComponentDescription":"My first component","#,
    r#""ComponentPublisher":"Example","ComponentConfiguration":{"DefaultConfiguration":{"Message":"world"}},"Manifests":[{"Platform":{"os":"linux"},"#,
    r#""Lifecycle":{"run":"python3 -u {artifacts:path}/hello_world.py \"{configuration:/Message}\""},"#,
    r#""Artifacts":[{"URI":"s3://bucket/artifacts/hello_world.py"}]}]}"#
);

/// The document that wants it.
pub const HELLO: &str = concat!(
    r#"{"deploymentId":"d1","targetArn":"arn:aws:iot:us-east-1:123456789012:thinggroup/g1","#,
    r#""deploymentName":"hello","components":{"com.example.HelloWorld":{"componentVersion":"1.0.0"}}}"#
);

/// A library of its recipe, with its file of the bytes `abc`, that fails these calls.
pub fn hello_library(alloc: Global, failing: &[u64]) -> Result<MemoryLibrary, Fail> {
    let failing = List::new(Vec::from_slice(alloc, failing)?);
    let recipes = recipes_of(alloc, RECIPE)?;
    let files = files_of(alloc, b"com.example.HelloWorld", b"hello_world.py")?;
    Ok(MemoryLibrary::new(recipes, files, failing))
}
