// Rows: stores that are made, calls that serve, what is printed, and what is started and killed at which moment.
use crate::calls::{Asked, call};
use std::alloc::Global;
use std::process::Abort;
use std::test::Fail;
use test_calls::{Caller, Store, first_wrong};

/// Calls, one after another. A line `store` begins a store, with the recipes of its library. Every other line is a call: its
/// command; what the inbox has; how children end; the status; the lines that are printed, with `;` for each line feed; and what
/// was started and killed, each behind its moment.
///
/// One that broke comes up again ten seconds later, and then who needs it begins.
const COMES_UP: &str = concat!(
    r#"store|A 1.0.0 startup a;B 1.0.0 {"A":{}} run b
serve --turns 1|d1 ROLLBACK A 1.0.0 B 1.0.0|0 0 0|17|accepted d1;closed d1 SUCCESSFUL;ended 17 1;|0 start 0 a,0 start 1 b,0 kill 1,
serve --turns 16||0 1 0,1 1 0,2 1 0,3 0 10000|17|ended 17 16;|"#,
    r#"0 start 0 a,0 start 1 a,0 start 2 a,10000 start 3 a,10000 start 4 b,12000 kill 4,
store|A 1.0.0 startup a
serve --turns 15|d1 DO_NOTHING A 1.0.0|0 1 0,1 1 0,2 1 0,3 0 10000|17|accepted d1;failed d1 A startup code 1;failed d1 A startup code 1;"#,
    r#"failed d1 A startup code 1;closed d1 FAILED_ROLLBACK_NOT_REQUESTED;ended 17 15;|"#,
    r#"0 start 0 a,0 start 1 a,0 start 2 a,10000 start 3 a,
store|A 1.0.0 install i startup a;S 1.0.0 {"A":{"DependencyType":"SOFT"}} run r
serve --turns 1|d1 ROLLBACK A 1.0.0 S 1.0.0|0 0 0,1 0 0|17|accepted d1;closed d1 SUCCESSFUL;ended 17 1;|0 start 0 i,0 start 1 a,0 start 2 r,0 kill 2,
serve --turns 17||0 0 0,1 1 0,2 1 0,3 1 0,5 0 10000,6 0 10000|17|ended 17 17;|"#,
    r#"0 start 0 i,0 start 1 a,0 start 2 a,0 start 3 a,0 start 4 r,10000 start 5 i,10000 start 6 a,11000 kill 4,
"#
);

/// One breaks each time: the pause doubles up to 320 seconds. With a document that is refused it is the first one again.
const BREAKS: &str = concat!(
    r#"store|A 1.0.0 startup a
serve --turns 1|d1 ROLLBACK A 1.0.0|0 0 0|17|accepted d1;closed d1 SUCCESSFUL;ended 17 1;|0 start 0 a,
serve --turns 660||0 1 0,1 1 0,2 1 0,3 1 0,4 1 0,5 1 0,6 1 0,7 1 0,8 1 0,9 1 0,10 1 0,11 1 0,12 1 0,13 1 0,14 1 0,15 1 0,16 1 0,17 1 0,18 1 0,19 1 0,20 1 0|"#,
    r#"17|ended 17 660;|0 start 0 a,0 start 1 a,0 start 2 a,10000 start 3 a,10000 start 4 a,10000 start 5 a,30000 start 6 a,30000 start 7 a,"#,
    r#"30000 start 8 a,70000 start 9 a,70000 start 10 a,70000 start 11 a,150000 start 12 a,150000 start 13 a,150000 start 14 a,"#,
    r#"310000 start 15 a,310000 start 16 a,310000 start 17 a,630000 start 18 a,630000 start 19 a,630000 start 20 a,
serve --turns 140|107|0 1 0,1 1 0,2 1 0,3 1 0,4 1 0,5 1 0,6 1 0,7 1 0,8 1 0,9 1 0,10 1 0,11 1 0,12 1 0,13 1 0,14 1 0,15 1 0,16 1 0,17 1 0|"#,
    r#"17|refused 2 document NotJson;ended 17 140;|0 start 0 a,0 start 1 a,0 start 2 a,10000 start 3 a,10000 start 4 a,10000 start 5 a,"#,
    r#"30000 start 6 a,30000 start 7 a,30000 start 8 a,70000 start 9 a,70000 start 10 a,70000 start 11 a,95000 start 12 a,95000 start 13 a,"#,
    r#"95000 start 14 a,115000 start 15 a,115000 start 16 a,115000 start 17 a,
"#
);

/// One that runs for 400 seconds each time is up for long: the pause stays the first one. With 100 and 150 seconds it grows.
const LONG_RUNS: &str = concat!(
    r#"store|A 1.0.0 run a
serve --turns 1|d1 ROLLBACK A 1.0.0||17|accepted d1;closed d1 SUCCESSFUL;ended 17 1;|0 start 0 a,0 kill 0,
serve --turns 2424||0 1 400000,1 1 800000,2 1 1200000,3 1 1610000,4 1 2010000,5 1 2410000|17|ended 17 2424;|0 start 0 a,400000 start 1 a,800000 start 2 a,"#,
    r#"1210000 start 3 a,1610000 start 4 a,2010000 start 5 a,2420000 start 6 a,2424000 kill 6,
serve --turns 980||0 1 100000,1 1 200000,2 1 300000,3 1 410000,4 1 510000,5 1 610000,6 1 730000,7 1 830000,8 1 930000|17|ended 17 980;|"#,
    r#"0 start 0 a,100000 start 1 a,200000 start 2 a,310000 start 3 a,410000 start 4 a,510000 start 5 a,630000 start 6 a,730000 start 7 a,"#,
    r#"830000 start 8 a,970000 start 9 a,980000 kill 9,
serve --turns 940||0 1 150000,1 1 300000,2 1 450000,3 1 610000,4 1 760000,5 1 910000|17|ended 17 940;|0 start 0 a,150000 start 1 a,300000 start 2 a,"#,
    r#"460000 start 3 a,610000 start 4 a,760000 start 5 a,930000 start 6 a,940000 kill 6,
"#
);

/// The pause has grown to 320 seconds, and then one is up for 1,000 seconds before it breaks once more: ten seconds later it comes
/// up again.
const HICCUP: &str = concat!(
    r#"store|A 1.0.0 run a
serve --turns 1|d1 ROLLBACK A 1.0.0||17|accepted d1;closed d1 SUCCESSFUL;ended 17 1;|0 start 0 a,0 kill 0,
serve --turns 1700||0 1 0,1 1 0,2 1 0,3 1 0,4 1 0,5 1 0,6 1 0,7 1 0,8 1 0,9 1 0,10 1 0,11 1 0,12 1 0,13 1 0,14 1 0,15 1 0,16 1 0,17 1 0,18 1 1630000,"#,
    r#"19 1 0,20 1 0|17|ended 17 1700;|0 start 0 a,0 start 1 a,0 start 2 a,10000 start 3 a,10000 start 4 a,10000 start 5 a,30000 start 6 a,"#,
    r#"30000 start 7 a,30000 start 8 a,70000 start 9 a,70000 start 10 a,70000 start 11 a,150000 start 12 a,150000 start 13 a,150000 start 14 a,"#,
    r#"310000 start 15 a,310000 start 16 a,310000 start 17 a,630000 start 18 a,1630000 start 19 a,1630000 start 20 a,1640000 start 21 a,1680000 kill 21,
"#
);

/// What makes the calls of the rows.
#[derive(Clone, Copy)]
struct Serving;

impl Caller for Serving {
    fn is_row(&self, alloc: Global, store: &mut Store, row: &'static str) -> Result<bool, Fail> {
        let mut fields = row.splitn(4, '|');
        let command = fields.next().unwrap_or("");
        let inbox = fields.next().unwrap_or("");
        let ends = fields.next().unwrap_or("");
        let want = fields.next().unwrap_or("?");
        let asked = Asked {
            recipes: store.recipes,
            command,
            inbox,
            ends,
        };
        let said = call(alloc, &mut store.disk, asked)?;
        let is_wanted = said.as_str() == want;
        drop(said);
        Ok(is_wanted)
    }
}

/// Makes the calls of the rows.
fn each_row_comes(rt: &impl Abort, alloc: Global, rows: &'static str) -> Result<(), Fail> {
    assert_eq!(rt; first_wrong(alloc, &Serving, rows)?, "");
    Ok(())
}

#[test]
fn what_broke_comes_up_again(rt: HostRuntime) -> Result<(), Fail> {
    each_row_comes(&rt, rt.alloc(), COMES_UP)
}

#[test]
fn the_pause_grows_and_begins_anew(rt: HostRuntime) -> Result<(), Fail> {
    each_row_comes(&rt, rt.alloc(), BREAKS)
}

#[test]
fn long_runs_shorten_the_pause(rt: HostRuntime) -> Result<(), Fail> {
    each_row_comes(&rt, rt.alloc(), LONG_RUNS)
}

#[test]
fn a_hiccup_costs_ten_seconds(rt: HostRuntime) -> Result<(), Fail> {
    each_row_comes(&rt, rt.alloc(), HICCUP)
}
