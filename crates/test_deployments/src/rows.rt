// Rows: stores that are made, documents that are deployed to them, and what is printed.
use std::alloc::Global;
use std::test::Fail;
use test_calls::{Asked, Caller, Store, call, first_wrong};

/// Calls, one after another. A line `store` begins a store whose library has recipes of these words: a name, a version, and
/// then a step and its script, any number of times. Every other line is a call: its command; the document's id and policy and
/// the versions that it wants by name; how children end, each by its number, its code or `lost`, and the moment, and which starts
/// are refused; the status; and the lines that are printed, with `;` for each line feed.
const ROWS: &str = "store|A 1.0.0 startup s1;A 2.0.0 startup s2 recover r2
deploy|d1 ROLLBACK A 1.0.0|0 0 0|0|accepted d1;closed d1 SUCCESSFUL;
deploy|d1 ROLLBACK A 1.0.0||0|closed d1 SUCCESSFUL;
resume|||0|idle;
deploy|d2 ROLLBACK A 2.0.0|0 1 0,1 0 0,2 1 0,3 0 0,4 1 0,5 0 0|10|\
    accepted d2;failed d2 A startup code 1;failed d2 A startup code 1;failed d2 A startup code 1;closed d2 FAILED_ROLLBACK_COMPLETE;
deploy|d3 ROLLBACK A 2.0.0|0 1 0,1 0 0,2 1 0,3 0 0,4 1 0,5 1 0,6 1 0,7 1 0|12|accepted d3;failed d3 A startup code 1;failed d3 A startup code 1;\
    failed d3 A startup code 1;failed d3 A startup code 1;failed d3 A startup code 1;failed d3 A startup code 1;closed d3 FAILED_UNABLE_TO_ROLLBACK;
deploy|d4 DO_NOTHING A 2.0.0|0 1 0,1 0 0,2 1 0,3 0 0,4 1 0|11|\
    accepted d4;failed d4 A startup code 1;failed d4 A startup code 1;failed d4 A startup code 1;closed d4 FAILED_ROLLBACK_NOT_REQUESTED;
deploy|d2 ROLLBACK A 2.0.0||10|closed d2 FAILED_ROLLBACK_COMPLETE;
deploy|d5 ROLLBACK||0|accepted d5;closed d5 SUCCESSFUL;
deploy|d6 ROLLBACK A 3.0.0||3|refused 3 NoVersion;
store|A 1.0.0 startup s1;A 2.0.0 startup s2 recover r2
deploy|d1 ROLLBACK A 1.0.0|0 0 0|0|accepted d1;closed d1 SUCCESSFUL;
deploy|d2 ROLLBACK A 2.0.0|refuse 0,refuse 2,refuse 4,0 0 0,1 0 0,2 0 0|10|\
    accepted d2;failed d2 A startup notstarted;failed d2 A startup notstarted;failed d2 A startup notstarted;closed d2 FAILED_ROLLBACK_COMPLETE;
deploy|d3 ROLLBACK A 2.0.0|refuse 1,refuse 3,refuse 5,0 1 0,1 1 0,2 1 0,3 0 0|10|accepted d3;failed d3 A startup code 1;\
    failed d3 A startup code 1;failed d3 A startup code 1;failed d3 A startup notstarted;closed d3 FAILED_ROLLBACK_COMPLETE;
deploy|d4 ROLLBACK A 2.0.0|0 lost 0,1 lost 0,2 lost 0,3 lost 0,4 lost 0,5 0 0|10|\
    accepted d4;failed d4 A startup lost;failed d4 A startup lost;failed d4 A startup lost;closed d4 FAILED_ROLLBACK_COMPLETE;
store|A 1.0.0 bootstrap a;B 1.0.0 bootstrap b;C 1.0.0 bootstrap c
deploy|d5 ROLLBACK A 1.0.0 B 1.0.0|0 100 0|100|accepted d5;restart d5;
deploy|d6 ROLLBACK||4|refused 4 pending d5;
resume||0 0 0|100|resumed d5;restart d5;
resume|||0|resumed d5;closed d5 SUCCESSFUL;
deploy|d7 ROLLBACK C 1.0.0|0 7 0|10|accepted d7;failed d7 C bootstrap code 7;closed d7 FAILED_ROLLBACK_COMPLETE;
deploy|d8 DO_NOTHING C 1.0.0|0 7 0|11|accepted d8;failed d8 C bootstrap code 7;closed d8 FAILED_ROLLBACK_NOT_REQUESTED;
store|A 1.0.0 startup s
deploy|d1 ROLLBACK A 1.0.0||10|\
    accepted d1;failed d1 A startup timeout;failed d1 A startup timeout;failed d1 A startup timeout;closed d1 FAILED_ROLLBACK_COMPLETE;
deploy|d2 ROLLBACK A 1.0.0|0 0 120000|0|accepted d2;closed d2 SUCCESSFUL;
store|A 1.0.0 run r shutdown q
deploy|d1 ROLLBACK A 1.0.0|1 0 5|0|accepted d1;closed d1 SUCCESSFUL;
store|A 1.0.0 install i
deploy|d1 ROLLBACK A 1.0.0|refuse 0,refuse 1,refuse 2|10|\
    accepted d1;failed d1 A install notstarted;failed d1 A install notstarted;failed d1 A install notstarted;closed d1 FAILED_ROLLBACK_COMPLETE;
store|A 1.0.0 skip i
deploy|d1 ROLLBACK A 1.0.0|refuse 0|0|accepted d1;closed d1 SUCCESSFUL;
store|A 1.0.0 startup s1 again b1;A 2.0.0 bootstrap b2
deploy|d1 ROLLBACK A 1.0.0|0 0 0|100|accepted d1;restart d1;
resume||0 0 0|0|resumed d1;closed d1 SUCCESSFUL;
deploy|d2 ROLLBACK A 2.0.0|0 7 0,1 0 0|100|accepted d2;failed d2 A bootstrap code 7;restart d2;
resume||0 0 0|10|resumed d2;closed d2 FAILED_ROLLBACK_COMPLETE;
deploy|d3 ROLLBACK A 2.0.0|0 7 0,1 7 0|12|accepted d3;failed d3 A bootstrap code 7;failed d3 A bootstrap code 7;closed d3 FAILED_UNABLE_TO_ROLLBACK;
store|
deploy|r5@5 ROLLBACK||0|accepted r5;closed r5 SUCCESSFUL;
deploy|r4@4 ROLLBACK||18|refused 18 Stale r4 5;
deploy|r0 ROLLBACK||0|accepted r0;closed r0 SUCCESSFUL;
status|||0|thing t1;nucleus 2.12.0;group g;revision 5;closed r5 SUCCESSFUL;closed r0 SUCCESSFUL;
";

/// Such calls with requests made at the device. A recipe that begins with `{` is written out, and so is each request.
const REQUEST_ROWS: &str = concat!(
    r#"store|{"RecipeFormatVersion":"2020-01-25","ComponentName":"X","ComponentVersion":"1.0.0","#,
    r#""ComponentConfiguration":{"DefaultConfiguration":{"p":0}},"Manifests":[{}]}
local|{"deploymentId":"l1","merge":{"X":"^1.0.0"},"updateConfig":{"X":{"merge":{"p":1}}}}||0|accepted l1;closed l1 SUCCESSFUL;
status|||0|thing t1;nucleus 2.12.0;group local;require X ^1.0.0;component X 1.0.0 {"p":1};closed l1 SUCCESSFUL;
config-set --component X|{"deploymentId":"c1","merge":{"p":2,"q":[]}}||0|accepted c1;closed c1 SUCCESSFUL;
status|||0|thing t1;nucleus 2.12.0;group local;require X ^1.0.0;component X 1.0.0 {"p":2,"q":[]};closed l1 SUCCESSFUL;closed c1 SUCCESSFUL;
config-set --component X|{"deploymentId":"c2","reset":["/p"]}||0|accepted c2;closed c2 SUCCESSFUL;
status|||0|thing t1;nucleus 2.12.0;group local;require X ^1.0.0;component X 1.0.0 {"p":0,"q":[]};closed l1 SUCCESSFUL;closed c1 SUCCESSFUL;closed c2 SUCCESSFUL;
config-set --component Y|{"deploymentId":"c3"}||19|refused 19 NoComponent Y;
config-set --component Y|{"deploymentId":"c1"}||0|closed c1 SUCCESSFUL;
config-set --component X|{"merge":{}}||2|refused 2 document Missing deploymentId;
config-set --component X|{"deploymentId":"c4","merge":[]}||2|refused 2 document BadMerge X;
local|{"deploymentId":"l2","remove":["X"]}||0|accepted l2;closed l2 SUCCESSFUL;
status|||0|thing t1;nucleus 2.12.0;group local;closed l1 SUCCESSFUL;closed c1 SUCCESSFUL;closed c2 SUCCESSFUL;closed l2 SUCCESSFUL;
local|{"deploymentId":"l3","remove":["Y"]}||2|refused 2 local NotLocal Y;
local|{"deploymentId":"l1","remove":["Y"]}||0|closed l1 SUCCESSFUL;
local|{"deploymentId":"l4","updateConfig":{"X":{}}}||2|refused 2 local Unlisted X;
local|{"remove":[]}||2|refused 2 local Missing deploymentId;
local|[]||2|refused 2 local WrongKind request;
local|{"deploymentId":"l5","merge":{"X":"1.0.0"},"remove":["X"]}||2|refused 2 local Both X;
local|{"deploymentId":"l5","merge":{"X":"^9"}}||3|refused 3 NoVersion;
store|A 1.0.0 startup s1;B 1.0.0 startup s2;{"RecipeFormatVersion":"2020-01-25","ComponentName":"N","#,
    r#""ComponentVersion":"1.0.0","ComponentDependencies":{"A":{"VersionRequirement":"^1.0.0"}},"Manifests":[{}]}
deploy|d1 ROLLBACK N 1.0.0|0 0 0|0|accepted d1;closed d1 SUCCESSFUL;
config-set --component A|{"deploymentId":"c1"}||19|refused 19 NotListed A;
local|{"deploymentId":"l1","merge":{"B":"1.0.0"}}|0 0 0,1 1 0,2 1 0,3 1 0,4 0 0|10|"#,
    r#"accepted l1;failed l1 B startup code 1;failed l1 B startup code 1;failed l1 B startup code 1;closed l1 FAILED_ROLLBACK_COMPLETE;
status|||0|thing t1;nucleus 2.12.0;group g;require N 1.0.0;component A 1.0.0 {};component N 1.0.0 {};closed d1 SUCCESSFUL;closed l1 FAILED_ROLLBACK_COMPLETE;
local|{"deploymentId":"l2","failureHandlingPolicy":"DO_NOTHING","merge":{"B":"1.0.0"}}|0 0 0,1 1 0,2 1 0,3 1 0|11|"#,
    r#"accepted l2;failed l2 B startup code 1;failed l2 B startup code 1;failed l2 B startup code 1;closed l2 FAILED_ROLLBACK_NOT_REQUESTED;
status|||0|thing t1;nucleus 2.12.0;group g;require N 1.0.0;group local;require B 1.0.0;component A 1.0.0 {};component B 1.0.0 {};"#,
    r#"component N 1.0.0 {};closed d1 SUCCESSFUL;closed l1 FAILED_ROLLBACK_COMPLETE;closed l2 FAILED_ROLLBACK_NOT_REQUESTED;
"#
);

/// What makes the calls of the rows.
#[derive(Clone, Copy)]
struct Deployments;

impl Caller for Deployments {
    fn is_row(&self, alloc: Global, store: &mut Store, row: &'static str) -> Result<bool, Fail> {
        let mut fields = row.splitn(4, '|');
        let command = fields.next().unwrap_or("");
        let document = fields.next().unwrap_or("");
        let ends = fields.next().unwrap_or("");
        let want = fields.next().unwrap_or("?");
        // A change of a configuration takes nothing from a library.
        let recipes = if command.starts_with("config-set") {
            ""
        } else {
            store.recipes
        };
        let asked = Asked {
            recipes,
            command,
            document,
            ends,
        };
        let printed = call(alloc, &mut store.disk, asked)?;
        let is_wanted = printed.as_str() == want;
        drop(printed);
        Ok(is_wanted)
    }
}

#[test]
fn deployments_run_their_steps(rt: HostRuntime) -> Result<(), Fail> {
    assert_eq!(rt; first_wrong(rt.alloc(), &Deployments, ROWS)?, "");
    Ok(())
}

#[test]
fn requests_are_deployed(rt: HostRuntime) -> Result<(), Fail> {
    assert_eq!(rt; first_wrong(rt.alloc(), &Deployments, REQUEST_ROWS)?, "");
    Ok(())
}
