// Why no version exists, by the top call, over stores, libraries and documents in memory.
use crate::plans::is_row;
use std::alloc::Global;
use std::test::Fail;

const WHY: &str = "nucleus --root /gg why";

/// Each line has the records of a journal, the recipes of a library, a document, the status, and what is printed, as the
/// lines of plans do. The refusals stand in the order in which they are looked for: a row that is refused would be refused by
/// what stands in a later row too.
const ROWS: &str = concat!(
    r#"|X 1.0.0|no document|8|refused 8 NotInitialised;
activate|X 1.0.0|no document|9|refused 9 Damaged 0;
genesis d5|{"RecipeFormatVersion":"1"}|no document|4|refused 4 pending d5;
genesis r5 activate close|{"RecipeFormatVersion":"1"}|{"deploymentId":"r5","revision":4,"components":{}}|2|refused 2 document Missing targetArn;
genesis r5 activate close|{"RecipeFormatVersion":"1"}|{"deploymentId":"r5","targetArn":"g","revision":4,"components":{}}|0|closed r5 SUCCESSFUL;
genesis d5 begin fail break back|X 1.0.0|{"deploymentId":"d5","targetArn":"g","components":{}}|10|closed d5 FAILED_ROLLBACK_COMPLETE;
genesis r5 activate close|{"RecipeFormatVersion":"1"}|{"deploymentId":"r4","targetArn":"g","revision":4,"components":{}}|18|refused 18 Stale r4 5;
genesis|{"RecipeFormatVersion":"2020-01-25","ComponentName":"A","ComponentVersion":"1.0.0","Manifests":[{"Artifacts":[{"URI":"s3://b/f","#,
    r#""Unarchive":"ZIP"}]}]}|{"deploymentId":"d1","targetArn":"g","components":{"B":{"componentVersion":"*"}}}|2|refused 2 recipe 0 ZipArtifact;
genesis ga activate close|X 1.2.9 Y *|{"deploymentId":"d1","targetArn":"g","components":{"B":{"componentVersion":"*"}}}|2|refused 2 RecipeDiffers X 1.2.9;
genesis|A 1.0.0;B 1.0.0;A 1.0.0 C *|{"deploymentId":"d1","targetArn":"g","components":{"C":{"componentVersion":"*"}}}|2|refused 2 TwoRecipes A 1.0.0;
genesis|A 2.0.0 C ^2;B 1.0.0 C ^1;C 1.0.0;C 2.0.0|{"deploymentId":"d1","targetArn":"g","components":{"A":{"componentVersion":"*"},"#,
    r#""B":{"componentVersion":"*"}}}|3|split A 1;  try A 2.0.0;    split B 1;      try B 1.0.0;        split C 2;          "#,
    r#"try C 1.0.0;            refused C 1.0.0 by A 2.0.0;          try C 2.0.0;            refused C 2.0.0 by B 1.0.0;
genesis|A 2.0.0 C ^2;A 1.0.0 C ^1;B 1.0.0 C ^1;C 1.0.0;C 2.0.0|"#,
    r#"{"deploymentId":"d1","targetArn":"g","components":{"A":{"componentVersion":"*"},"B":{"componentVersion":"*"}}}|0|possible;
genesis|A 1.0.0|{"deploymentId":"d1","targetArn":"g","components":{"B":{"componentVersion":"*"}}}|3|split B 0;
genesis|A 1.0.0|{"deploymentId":"d1","targetArn":"g","components":{"A":{"componentVersion":"^2"}}}|3|split A 1;  try A 1.0.0;    refused A 1.0.0 by wanted;
genesis ga activate close|X 1.1.0;X 2.0.0|{"deploymentId":"d1","targetArn":"gb","components":{"X":{"componentVersion":"^2"}}}|3|"#,
    r#"split X 3;  try X 1.1.0;    refused X 1.1.0 by wanted;  try X 1.2.9;    refused X 1.2.9 by wanted;  try X 2.0.0;    refused X 2.0.0 by wanted;
genesis|X 1.0.0|{"deploymentId":"d1","targetArn":"g","components":{}}|0|possible;"#
);

/// The first line of which something else comes, or none.
fn first_wrong(alloc: Global) -> Result<&'static str, Fail> {
    for row in ROWS.lines() {
        if !is_row(alloc, WHY, row)? {
            return Ok(row);
        }
    }
    Ok("")
}

#[test]
fn a_certificate_is_printed_or_the_refusal(rt: HostRuntime) -> Result<(), Fail> {
    assert_eq!(rt; first_wrong(rt.alloc())?, "");
    Ok(())
}
