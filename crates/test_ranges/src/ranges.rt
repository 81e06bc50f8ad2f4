// Ranges and versions: what each holds and how each is read, worked out by hand from the format's table and from Semantic
// Versioning 2.0.0.
use npm_ranges::{Range, RangeFault, Version, VersionFault};
use nuc_base::Copied;
use std::alloc::Global;
use std::cmp::Ordering;
use std::test::Fail;

/// A range, a version, and whether the range holds it; or a text, and what is answered of it: `range` or `no range` or
/// `long range`, `no version`; or two versions, of which the first is `below` the second.
const ROWS: &str = "\
^1.2.3;1.9.0;y
^1.2.3;2.0.0;n
^1.2.3;2.0.0-a;n
^0.2.3;0.2.9;y
^0.2.3;0.3.0;n
^0.0.3;0.0.3;y
^0.0.3;0.0.4;n
~1;1.9.9;y
1.2.3 - 2.3;2.3.9;y
1.2.3 - 2.3;2.4.0;n
>1.2;1.3.0;y
>1.2;1.2.9;n
>=1.2.3-alpha.1;1.2.3-alpha.2;y
>=1.2.3-alpha.1;1.2.4;y
>=1.2.3-alpha.1;1.2.4-alpha.1;n
;1.0.0;y
;1.0.0-a;n
<1.0.0 || >=2.0.0;2.0.0;y
<1.0.0 || >=2.0.0;1.5.0;n
>= 1.0.0;1.0.0+b;y
*;0.0.0;y
*;1.2.3;y
*;1.0.0-a;n
x;5.6.7;y
X;0.0.1;y
v*;3.0.0;y
vx;3.0.0;y
=*;9.9.9;y
= x;1.0.0;y
*.2.3;7.0.0;y
x.1;0.0.0;y
1;1.0.0;y
1;1.99.5;y
1;2.0.0;n
1;0.9.9;n
1;1.0.0-a;n
1;1.5.0-a;n
1;1.5.0+b;y
1.x;1.4.0;y
1.*;1.0.0;y
1.X.X;1.0.9;y
1.x.3;1.5.0;y
1.x.3;2.0.0;n
=1;1.2.0;y
v1;1.2.0;y
=v1;1.3.0;y
1.2;1.2.0;y
1.2;1.2.9;y
1.2;1.3.0;n
1.2;1.1.9;n
1.2.x;1.2.7;y
1.2.*;1.2.7;y
1.2.X;1.3.0;n
=1.2;1.2.4;y
=1.2;1.2.0-rc;n
1.2.3;1.2.3;y
1.2.3;1.2.4;n
1.2.3;1.2.2;n
=1.2.3;1.2.3;y
= 1.2.3;1.2.3;y
1.2.3;1.2.3+x;y
1.2.3+y;1.2.3+x;y
v1.2.3;1.2.3;y
1.2.3;1.2.3-a;n
1.2.3-a;1.2.3-a;y
1.2.3-a;1.2.3;n
1.2.3-a;1.2.3-b;n
1.2.3-a+b;1.2.3-a+c;y
<*;0.0.0;n
<*;1.0.0;n
<x;0.0.0-a;n
<1;0.9.9;y
<1;1.0.0;n
<1;0.0.0;y
<2;1.9.9;y
<2;2.0.0-a;n
<2;1.0.0-a;n
<1.2;1.1.9;y
<1.2;1.2.0;n
<1.2;0.9.0;y
<1.2.x;1.1.0;y
<1.2.x;1.2.0;n
<1.2.3;1.2.2;y
<1.2.3;1.2.3;n
<1.2.3;1.2.3-a;n
<1.2.3-b;1.2.3-a;y
<1.2.3-b;1.2.2;y
<1.2.3-b;1.2.3-b;n
<1.2.3-b;1.2.3;n
<1.2.3-b;1.2.2-a;n
<=*;0.0.0;y
<=*;7.8.9;y
<=1;1.9.9;y
<=1;2.0.0;n
<=1.2;1.2.9;y
<=1.2;1.3.0;n
<=1.2.3;1.2.3;y
<=1.2.3;1.2.4;n
<=1.2.3;1.2.3+z;y
<=1.2.3-b;1.2.3-b;y
<=1.2.3-b;1.2.3-c;n
>*;9.9.9;n
>1;2.0.0;y
>1;1.9.9;n
>1;1.0.0;n
>1;2.0.0-a;n
>1.2;1.2.0;n
>1.2;2.0.0;y
>1.2.x;1.3.0;y
>1.2.3;1.2.4;y
>1.2.3;1.2.3;n
>1.2.3;1.2.3+a;n
>1.2.3-a;1.2.3-b;y
>1.2.3-a;1.2.3;y
>1.2.3-a;1.2.3-a;n
>1.2.3-a;1.2.4-a;n
>=*;0.0.0;y
>=*;1.2.3;y
>=1;1.0.0;y
>=1;0.9.9;n
>=1;5.0.0;y
>=1.2;1.2.0;y
>=1.2;1.1.9;n
>=1.2.3;1.2.3;y
>=1.2.3;1.2.2;n
>=1.2.3;1.2.4-a;n
>=1.2.3-a;1.2.3-a;y
>=1.2.3-b;1.2.3-a;n
>=0.0.0-a;0.0.0-b;y
>=0.0.0;0.0.0-b;n
~*;3.4.5;y
~1;2.0.0;n
~1;1.0.0;y
~0;0.9.9;y
~0;1.0.0;n
~1.2;1.2.9;y
~1.2;1.3.0;n
~1.2.x;1.2.3;y
~ 1.2;1.2.0;y
~1.2.3;1.2.3;y
~1.2.3;1.2.9;y
~1.2.3;1.3.0;n
~1.2.3;1.2.2;n
~v1.2.3;1.2.5;y
~1.2.3-b;1.2.3-c;y
~1.2.3-b;1.2.3-a;n
~1.2.3-b;1.2.4;y
~1.2.3-b;1.2.4-c;n
^*;8.0.0;y
^1;1.9.9;y
^1;2.0.0;n
^0;0.9.9;y
^0;1.0.0;n
^1.2;1.2.0;y
^1.2;1.9.0;y
^1.2;1.1.9;n
^1.2;2.0.0;n
^0.2;0.2.9;y
^0.2;0.3.0;n
^0.0;0.0.9;y
^0.0;0.1.0;n
^0.x;0.9.0;y
^1.x;1.0.0;y
^1.x.x;1.7.0;y
^1.2.3;1.2.3;y
^1.2.3;1.2.2;n
^ 1.2.3;1.5.0;y
^0.2.3;0.2.3;y
^0.2.3;0.2.2;n
^0.2.3;1.2.3;n
^0.0.0;0.0.0;y
^0.0.0;0.0.1;n
^0.0.3;0.0.2;n
^1.2.3-b;1.2.3-c;y
^1.2.3-b;1.2.3-a;n
^1.2.3-b;1.9.0;y
^1.2.3-b;1.9.0-c;n
^1.2.3-b;2.0.0;n
^0.0.3-b;0.0.3-c;y
^0.0.3-b;0.0.3;y
^0.0.3-b;0.0.4;n
^1.0.0+b;1.0.0+c;y
1.2.3 - 2.3.4;2.3.4;y
1.2.3 - 2.3.4;2.3.5;n
1.2.3 - 2.3.4;1.2.3;y
1.2.3 - 2.3.4;1.2.2;n
1.2 - 2.3.4;1.2.0;y
1.2 - 2.3.4;1.1.9;n
1.2.3 - 2;2.9.9;y
1.2.3 - 2;3.0.0;n
* - 2;0.0.0;y
1 - *;9.0.0;y
1 - *;0.9.0;n
v1 - v2;2.5.0;y
1.0.0-a - 1.0.0-c;1.0.0-b;y
1.0.0-a - 1.0.0-c;1.0.0-d;n
1.0.0-a - 2.0.0;1.0.0-b;y
1.0.0-a - 2.0.0;2.0.0-b;n
1\t-\t2;1.5.0;y
1  -  2;3.0.0;n
 1 - 2 ;2.0.0;y
>=1.0.0 <2.0.0;1.0.0;y
>=1.0.0 <2.0.0;1.5.0;y
>=1.0.0 <2.0.0;2.0.0;n
>=1.0.0 <2.0.0;0.9.0;n
>=1 <3 >1.5;1.5.9;n
>=1 <3 >1.5;1.6.0;y
>1.0.0-a <1.0.0;1.0.0-b;y
>1.0.0-a <2.0.0;2.0.0-b;n
<2.0.0 >1.0.0-a;1.0.0-b;y
<2.0.0-z >=1.0.0;2.0.0-b;y
1.x 1.2.x;1.2.3;y
1.x 1.2.x;1.3.0;n
* *;0.1.0;y
>=1\t<2;1.1.0;y
>=  1.2.3;1.2.3;y
>=\t1.2.3 <\t2;1.9.0;y
^1 ~1.2;1.2.5;y
^1 ~1.2;1.3.0;n
1 || 3;1.0.0;y
1 || 3;2.0.0;n
1 || 3;3.3.0;y
1||3;3.0.0;y
1 ||3;3.0.0;y
||;5.0.0;y
||;5.0.0-a;n
1.0.0-a ||;1.0.0-a;y
1.0.0-a ||;7.0.0;y
|| 1.0.0-a;1.0.0-b;n
<1 ||;5.0.0;y
2 || <1 || 1.5.0;1.5.0;y
2 || <1 || 1.5.0;1.5.1;n
\t||\t;0.0.0;y
1 - 2 || 4 - 5;4.5.0;y
1 - 2 || 4 - 5;3.0.0;n
* || 1.0.0-a;1.0.0-a;y
* || 1.0.0-a;1.0.0-b;n
1.0.0-a || <2;1.0.0-b;n
 ;1.0.0;y
 1.2.3 ;1.2.3;y
\t1.2.3\t;1.2.3;y
0;0.5.0;y
0.0.0;0.0.0;y
18446744073709551615;18446744073709551615.0.0;y
>=18446744073709551615.0.0;18446744073709551615.0.0;y
<18446744073709551615;18446744073709551614.9.9;y
^0.0.18446744073709551615;0.0.18446744073709551615;y
1.2.3-99999999999999999999999;1.2.3-99999999999999999999999;y
>1.2.3-99999999999999999999998;1.2.3-99999999999999999999999;y
>1.2.3-2;1.2.3-10;y
>1.2.3-10;1.2.3-a;y
||;;range
;;range
\x20;;range
\t;;range
||||;;range
*;;range
x;;range
X;;range
v1;;range
1.x.x;;range
1.2.3-x;;range
1.2.3-a.b-c.1+x.y;;range
1.2.3+01;;range
>=1;;range
> 1;;range
1 - 2;;range
1 2;;range
<=1 >=0 =1 ~1 ^1 <9 >0;;range
18446744073709551615.0.0;;range
x.1.2;;range
*.*.*;;range
0.0.0;;range
=v1.2.3;;range
~ v1;;range
1 1 1 1 1 1 1 1 1 1 1 1 1 1 1 1 1 1 1 1 1 1 1 1 1 1 1 1 1 1 1 1;;range
||||||||||||||||||||||||||||||||||||||||||||||||||||||||||||||;;range
1 - 2 || 1 - 2 || 1 - 2 || 1 - 2 || 1 - 2 || 1 - 2 || 1 - 2 || 1 - 2 || 1 - 2 || 1 - 2 || 1 - 2 || 1 - 2 || 1 - 2 || 1 - 2 || 1 - 2 || 1 - 2;;range
1.2.3.4;;no range
=01.0.0;;no range
01;;no range
1.02;;no range
1.2.03;;no range
00;;no range
18446744073709551616;;no range
1.18446744073709551616.0;;no range
0.0.18446744073709551616;;no range
99999999999999999999999;;no range
a;;no range
1.a;;no range
1.2.a;;no range
1.;;no range
.1;;no range
1..2;;no range
1.2.;;no range
.;;no range
v;;no range
vv1;;no range
V1;;no range
v 1;;no range
xx;;no range
1x;;no range
x1;;no range
**;;no range
-;;no range
- 1;;no range
1 -;;no range
1 -\x20;;no range
1-2;;no range
1 -2;;no range
1- 2;;no range
1 - 2 - 3;;no range
1 - 2 3;;no range
1 2 - 3;;no range
>1 - 2;;no range
1 - <2;;no range
= - 1;;no range
>;;no range
>=;;no range
> =1;;no range
>>1;;no range
=>1;;no range
<>1;;no range
==1;;no range
~>1;;no range
^^1;;no range
~^1;;no range
> > 1;;no range
1 >;;no range
1,2;;no range
1 && 2;;no range
>=1<2;;no range
1.2.3-;;no range
1.2.3+;;no range
1.2.3-a..b;;no range
1.2.3-01;;no range
1.2.3-a_b;;no range
1.2.3+a+b;;no range
1.2-a;;no range
1.2+a;;no range
1-a;;no range
x-a;;no range
*-a;;no range
1.x-a;;no range
1.2.x-a;;no range
1.2.x+b;;no range
x+b;;no range
é;;no range
1.2.3-é;;no range
+1;;no range
-1;;no range
1.-2.3;;no range
0x1;;no range
1e3;;no range
1.2.3 -a;;no range
(1);;no range
latest;;no range
|;;no range
1 | 2;;no range
1 |;;no range
| |;;no range
|||;;no range
1 ||| 2;;no range
1 1 1 1 1 1 1 1 1 1 1 1 1 1 1 1 1 1 1 1 1 1 1 1 1 1 1 1 1 1 1 1 1 a;;no range
1 1 1 1 1 1 1 1 1 1 1 1 1 1 1 1 1 1 1 1 1 1 1 1 1 1 1 1 1 1 1 1 1;;long range
||||||||||||||||||||||||||||||||||||||||||||||||||||||||||||||||;;long range
1 - 2 || 1 - 2 || 1 - 2 || 1 - 2 || 1 - 2 || 1 - 2 || 1 - 2 || 1 - 2 || 1 - 2 || \
    1 - 2 || 1 - 2 || 1 - 2 || 1 - 2 || 1 - 2 || 1 - 2 || 1 - 2 || 1 - 2;;long range
1;;no version
;;no version
1.0;;no version
1.0.0.0;;no version
01.0.0;;no version
1.0.0-;;no version
1.0.0-01;;no version
1.0.0+;;no version
v1.0.0;;no version
 1.0.0;;no version
1.0.0\x20;;no version
18446744073709551616.0.0;;no version
1.0.0-a..b;;no version
1.x.0;;no version
1.0.0-é;;no version
1.0.0-alpha;1.0.0-alpha.1;below
1.0.0-alpha.1;1.0.0-alpha.beta;below
1.0.0-alpha.beta;1.0.0-beta;below
1.0.0-beta;1.0.0-beta.2;below
1.0.0-beta.2;1.0.0-beta.11;below
1.0.0-beta.11;1.0.0-rc.1;below
1.0.0-rc.1;1.0.0;below
1.0.0;1.0.0+1;below
1.0.0+1;1.0.0+10;below
1.0.0+10;1.0.0+2;below
1.0.0+2;1.0.0+a;below
1.0.0+a;1.0.1-0;below
1.0.1-0;1.0.1;below
1.0.1;1.1.0;below
1.1.0;1.10.0;below
1.10.0;2.0.0-99999999999999999999;below
2.0.0-99999999999999999999;2.0.0-100000000000000000000;below
2.0.0-100000000000000000000;2.0.0;below
2.0.0;18446744073709551615.0.0;below";

/// A copy of the range that is read.
fn range_of(alloc: Global, text: &str) -> Result<Range, Fail> {
    let range = Range::read(alloc, text.as_bytes())?;
    let copy = range.copy(alloc);
    drop(range);
    Ok(copy?)
}

/// A copy of the version that is read.
fn version_of(alloc: Global, text: &str) -> Result<Version, Fail> {
    let version = Version::read(alloc, text.as_bytes())?;
    let copy = version.copy(alloc);
    drop(version);
    Ok(copy?)
}

fn holds(alloc: Global, range: &Range, version: &str) -> Result<bool, Fail> {
    let version = version_of(alloc, version)?;
    let is_held = range.holds(&version);
    drop(version);
    Ok(is_held)
}

fn is_held(alloc: Global, range: &str, version: &str) -> Result<bool, Fail> {
    let range = range_of(alloc, range)?;
    let is_held = holds(alloc, &range, version);
    drop(range);
    is_held
}

fn is_second_above(alloc: Global, first: &Version, high: &str) -> Result<bool, Fail> {
    let second = Version::read(alloc, high.as_bytes())?;
    let is_above = first.compare(&second) == Ordering::Less && second > *first;
    drop(second);
    Ok(is_above)
}

fn is_below(alloc: Global, low: &str, high: &str) -> Result<bool, Fail> {
    let first = Version::read(alloc, low.as_bytes())?;
    let is_below = is_second_above(alloc, &first, high);
    let is_itself = first.text().as_str() == low;
    drop(first);
    Ok(is_below? && is_itself)
}

fn is_range(alloc: Global, text: &str) -> bool {
    let read = Range::read(alloc, text.as_bytes());
    let is_range = match &read {
        Ok(range) => range.text().as_str() == text,
        Err(_) => false,
    };
    drop(read);
    is_range
}

fn is_refused(alloc: Global, bytes: &[u8], fault: RangeFault) -> bool {
    Range::read(alloc, bytes).err() == Some(fault)
}

fn is_no_version(alloc: Global, bytes: &[u8]) -> bool {
    Version::read(alloc, bytes).err() == Some(VersionFault::Bad)
}

fn is_as_said(alloc: Global, row: &str) -> Result<bool, Fail> {
    let Some((first, rest)) = row.split_once(';') else {
        return Ok(false);
    };
    let Some((second, said)) = rest.split_once(';') else {
        return Ok(false);
    };
    match said {
        "y" => is_held(alloc, first, second),
        "n" => Ok(!is_held(alloc, first, second)?),
        "below" => is_below(alloc, first, second),
        "range" => Ok(is_range(alloc, first)),
        "no range" => Ok(is_refused(alloc, first.as_bytes(), RangeFault::Bad)),
        "long range" => Ok(is_refused(alloc, first.as_bytes(), RangeFault::TooManyParts)),
        "no version" => Ok(is_no_version(alloc, first.as_bytes())),
        _ => Ok(false),
    }
}

/// What no row can spell: line feeds, bytes that are no text, and the longest texts.
fn other_bytes_are_as_said(alloc: Global) -> Result<bool, Fail> {
    let blanks = vec![in alloc; b' '; 4097]?;
    let mut digits = vec![in alloc; b'1'; 129]?;
    digits[1] = b'.';
    digits[3] = b'.';
    digits[5] = b'-';
    Ok(
        is_refused(alloc, b"1\n2", RangeFault::Bad)
            && is_refused(alloc, b"1\xff", RangeFault::Bad)
            && is_refused(alloc, &blanks, RangeFault::Bad)
            && Range::read(alloc, &blanks[1..]).is_ok()
            && is_no_version(alloc, &digits)
            && Version::read(alloc, &digits[..128]).is_ok(),
    )
}

#[test]
fn ranges_and_versions_are_as_said(rt: HostRuntime) -> Result<(), Fail> {
    let alloc = rt.alloc();
    assert!(rt; other_bytes_are_as_said(alloc)?);
    for row in ROWS.lines() {
        assert!(rt; is_as_said(alloc, row)?, "{row}");
    }
    Ok(())
}
