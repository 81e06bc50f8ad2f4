use conflict_search::{SearchFault, search};
use std::alloc::Global;
use std::test::Fail;
use test_support::{library_of, push_places, wanted_of};

/// Small libraries: the candidates, what is wanted, and the places of the preferred set. `A1 B12 C33` is the version 1.0.0
/// of `A`, which needs `B` in a version from 1.0.0 to 2.0.0 and `C` in 3.0.0. The sets come from a program of its own, in
/// another language, that goes by the definitions and tries all sets.
const LIBRARIES: &str = "A3 B12;B1 C11;C1;C2;C3 B22 X13;X2;X3|B11 A13|0 1 2
A1 C23;A2 B23;A3 B33;B2 X11;C1;C3 B11 X22;X1;X2;X3|X12|7
A1;A2;A3 B23;B1 A13;B3 C12;C2;C3|B13|4 5
A1 B12 C23;A2 B33;A3 B23;B1;B2;C2 A11;C3|C12 A13|none
A1 Y12;A2 X23 Y33;B1 Y13;B3 C11 Y33;C1;C2 X11;X1;X3 A22;Y2 X13;Y3|B13 C12 A13|0 2 5 6 8
A2 B23;B1;B3 C22 X13;C2;X1;X2 B11|A13|0 2 3 4
A1 C12 X23;A3 B12 X12;B1;B3 A23;C3 X23;X2 B12|X13 B13|2 5
A1;A2 X33;A3 Y13;B2 C22 Y23;B3 C11 X23 Y12;C1 Y33;C3 B12 Y22;X1;Y2 B13;Y3 C23|B13 A23 A33|none
A2;A3;B1 C13 X22;B2 C22;B3 C23;C1 B23;C2;X2|C13 A33|1 6
A1 C13;A2 C33 X22;A3;B2;C2;C3 X11;X1;X2|B13 C13 A13|2 3 5 6
A2 B23 C13 X13;A3;B1;C1 A23;X1 C23;X2 A23;X3|X13 A23|1 6
A1 C13 X33;A2 X23;B2 X12;B3 C22;C1;C2;C3;X1;X2;X3|A13|1 9
A1 B23 X22;B2;B3;C1 X12;C2 X23;X1|C13 A11|none
A1;A2 C13;A3 C22 X33;B1;B2;C2;C3;X1;X3 A13|C13|6
A1 B23;A2 B22 C33;B1;B2 X23;B3 A13;C3 X23;X2|C11 C13 C33|none
A2 B12;B2;B3 A22 C22;C3 A13|C13 C11|none
A2 B23;B1 C23;B3 C11;C1;C2;C3|B13 A13|0 2 3
A1 C12;A3 C11;B1;B2 C12;B3 C13;C1;C2 A23;C3;X2 B12|A23 X13|1 3 5 8
A1 B23;A2 C33 X13;A3;B2 A12;B3 C23 X23;C1;C2;C3;X1 B23 C22;X3|A23 A12|1 7 9
A1;A2 X23;B2;B3;C1;C2 X23;C3 B13;X2 B13;X3|B13 C23 C13|3 6
A1 B11;A2 B22 C13;A3 B22 C12;B1;C1 B33;C2|A12 A13 B13|0 3
A1 B23;B1;B2 A13 Y23;C2 X22 Y11;X2 Y23;Y1|X13|none
A1;A2 C12;A3;B1;B2 C33;B3 X23;C1 X11;C2;X1;X3 B23 C23|X13 X13 C12|7 8
A1 B13;A3 B23 X12;B2 C22;C2;C3;X2 B11;X3 A13 B12|A12 X13|0 2 3 6
A1 X13;A2 Y11;A3 C12;B1 C33;C2 Y13;X1 B23;X2;X3;Y2;Y3 X23|Y13|7 9
A1 X22;A2 C23;A3 C13 X11;B1 A12 C23 X11;B3;C1 X13;C3 X12;X1 C13;X2;X3|A23|1 6 8
A1 B23 C23;B1 A11 X12;B2;B3 X23;C3;X2 C33|A13 A13|0 3 4 5
A1;A3 B13;B1 X33;B2 A13 C12;B3;C1 B12;C2;C3;X2;X3|X13 C11|2 5 9
A1 B33;A2 B22;B1 C23;B3 C22;C2;X1 A12;X2;X3 A13 B12|A13 B23 C13|0 3 4
A2 B23 C12;A3;B3;C1;C3 B13|A22|0 2 3
A1 B12;A2 C23;B2 X12;C1 X11;C2;X2;X3 B11|X33 B13|none
A1 X23;B2 C12 Y22;B3 C13;C1;C2 X12;X1 B11 C11;Y1 B23;Y2|C13|3
A1 X11;A3 B13;B1 A22 X23;B2;B3 C33;C1 X12;C2 B22 X12;X1 A12;X2;X3|B13 C13|3 6 8
A1 B13;A2 B12;B1 C23;B2 C33;B3 C22;C1;C2 B13;C3|A13 A13|1 3 7
A1;A3 X23;B1 A12 C12 X13;B3 C13;C2 A12;C3 X13;X1;X3|X13 X13|7
A1;A2 B13 C13;B1 C13;C2;C3;X1 B12;X2 A13;X3 C13|X12 B13|1 2 4 6
A1 B23;A2 B13 X22;B1 C11 X13;B2 A22 X23;C2;C3;X3 A13|A13 X13|none
A1;A2 B22;B1 C22;B2;C1 B23|A22|1 3
A1;A2 C33 Y23;B1 C22;B3;C1 X12 Y23;C2 Y23;C3;X1 A13;X3;Y3 C23|A13|1 6 9
A2;A3;B1 X11;B2 C33;B3 A13;C1;C2;X2;X3 A22|A13 A13|1
A1 B12 C13;A2;A3 B23 X33;B1 C22;B2;C2;C3;X2 B12;X3 B12|C12 X13|4 5 8
A1 C12;A3 C12 X33;B2 C13;B3;C1 A12;C2 X22;X1;X3|X13 A13|none
A1 B33 X13;A3;B1;B3;C1;C2 X23;C3 X23;X3 C23|B13 A12 X13|none
A1;A3 C33;B1;B3 A13 C23;C1;C2 B23|A23|none
A1 X13;A3 B13 C33 X22;B2 C22 X22;C1;C3;X1 A13;X2;X3 A13 C12|A12 A13|0 6
A1 X22;A2;A3 B13 C33 X13;B1 X23;B2;B3;C2 X12;C3;X2 A13 C23|A13 X23|1 7 8
A1 C23;A2 X12;B1 X23;B3 A11 C22 X12;C3 X33;X1 A23 B13 C11;X3|A13 B13 B13|0 2 4 6
A2 B12 X11;A3 B22;B1;B3 C12;C2;C3;X1 C23;X2 C33;X3 C23|B23 B22|none
A1 X11;A2 C23;A3 C13;B2 X12;C3;X1;X2 B23;X3 A13|X11 B13|3 5
A1 B33;A2 Y22;A3 B13 X23;B1 A33 C33 Y13;B2 A23 X23;C3 A33 Y11;X1 Y11;X2 A33 B22;Y2;Y3 A33 C12 X12|Y12 Y12 Y22|8
A1;A2 B22 X11;B2 X12;B3;C3;X1;X2|B13|3
A1 B22;A3;B3 A12 X33;C1;C2 X23;X1;Y1 X12;Y2|A12 Y12|none
A1 B23;A2 B11;A3 B23;B1;B2|B12 B13 A13|2 4
A3 C12 X12;B3;C1;C2;C3 B12 X13;X2;X3 C12|X13 B13|1 3 6
A1 B22;A2 C23 X12;A3 B22;B3 C22 X23;C2;X1 A13;X2;X3|B13 C13 X33|3 4 7
A2;A3 B22 C33;B1;B3 X23;C3 X23;X1;X2|C13 B13 B13|3 4 6
A1 B33;A2 B11 C13;A3;B1 A23 C12;B3;C1 B23;C2 A11;C3|C22 A12|0 4 6
A1 B33;A2;B1;B2;B3 C33;C1 B13;C2;C3|C13 A11|0 4 7
A1 B12;A2 X13;A3 C11;B2;B3 X23;C1 X22;C3 B23 X13;X2|X22 C13 X23|4 6 7
A1;A2;A3 B33 C23;B1;B2 A22 C11 X22;C2 X23;X1;X2|X11 A13|1 6
A2 B12 C13;B1;B2 X22;B3 A33;C2;C3;X1;X2|A13 A13 A23|0 2 5 7
A1;A2 C12;B1 A23 C12;B2;B3 C33;C1 A12;C2;C3|B13|4 7
A1 C13;B1;B2 A11;B3 A23;C1;C2|C13 B13 A13|0 2 5
A2 X23;B2 X12;B3;C1 X23;C2 X13;C3 X22;X2 B12|B13|2";

/// Rows of the same form. The newest `A` and `B` ask for different versions of `C`; without the older `A` no set is
/// valid, and neither where dependencies have a cycle. Of the last two, one has 2^80 choices of `a00` to `a39`, which have
/// no part in what fails; in the other the newest of `p00` to `p23` all have to give way for `zz`, which is decided last.
const CLASHES: &str = "A1 C:^1;A2 C:^2;B1 C:^1;C1;C2|A:* B:*|0 2 3
A2 C:^2;B1 C:^1;C1;C2|A:* B:*|none
A1 B:*;B1 A:*|A:*|none
a001;a002;a003;a004;a011;a012;a013;a014;a021;a022;a023;a024;a031;a032;a033;a034;a041;a042;a043;a044;a051;a052;a053;a054;a061;a062;a063;a064;a071;a072;a073;\
    a074;a081;a082;a083;a084;a091;a092;a093;a094;a101;a102;a103;a104;a111;a112;a113;a114;a121;a122;a123;a124;a131;a132;a133;a134;a141;a142;a143;a144;a151;\
    a152;a153;a154;a161;a162;a163;a164;a171;a172;a173;a174;a181;a182;a183;a184;a191;a192;a193;a194;a201;a202;a203;a204;a211;a212;a213;a214;a221;a222;a223;\
    a224;a231;a232;a233;a234;a241;a242;a243;a244;a251;a252;a253;a254;a261;a262;a263;a264;a271;a272;a273;a274;a281;a282;a283;a284;a291;a292;a293;a294;a301;\
    a302;a303;a304;a311;a312;a313;a314;a321;a322;a323;a324;a331;a332;a333;a334;a341;a342;a343;a344;a351;a352;a353;a354;a361;a362;a363;a364;a371;a372;a373;\
    a374;a381;a382;a383;a384;a391;a392;a393;a394;y1;z1 y:^2|a00:* a01:* a02:* a03:* a04:* a05:* a06:* a07:* a08:* a09:* a10:* a11:* a12:* a13:* a14:* a15:* \
    a16:* a17:* a18:* a19:* a20:* a21:* a22:* a23:* a24:* a25:* a26:* a27:* a28:* a29:* a30:* a31:* a32:* a33:* a34:* a35:* a36:* a37:* a38:* a39:* z:*|none
p001 q:^1;p002 q:^2;p011 q:^1;p012 q:^2;p021 q:^1;p022 q:^2;p031 q:^1;p032 q:^2;p041 q:^1;p042 q:^2;p051 q:^1;p052 q:^2;p061 q:^1;p062 q:^2;p071 q:^1;\
    p072 q:^2;p081 q:^1;p082 q:^2;p091 q:^1;p092 q:^2;p101 q:^1;p102 q:^2;p111 q:^1;p112 q:^2;p121 q:^1;p122 q:^2;p131 q:^1;p132 q:^2;p141 q:^1;p142 q:^2;\
    p151 q:^1;p152 q:^2;p161 q:^1;p162 q:^2;p171 q:^1;p172 q:^2;p181 q:^1;p182 q:^2;p191 q:^1;p192 q:^2;p201 q:^1;p202 q:^2;p211 q:^1;p212 q:^2;p221 q:^1;\
    p222 q:^2;p231 q:^1;p232 q:^2;q1;q2;zz1 q:^1|p00:* p01:* p02:* p03:* p04:* p05:* p06:* p07:* p08:* p09:* p10:* p11:* p12:* p13:* p14:* \
    p15:* p16:* p17:* p18:* p19:* p20:* p21:* p22:* p23:* q:* zz:*|1 3 5 7 9 11 13 15 17 19 21 23 25 27 29 31 33 35 37 39 41 43 45 47 49 51";

/// The places that are chosen, or that no set is valid; and how many candidates were looked at, unless it were many.
fn found(alloc: Global, rows: &str, words: &str) -> Result<String, Fail> {
    let candidates = library_of(alloc, rows)?;
    let wanted = wanted_of(alloc, words)?;
    let mut tries = 0;
    let mut text = String::new(alloc);
    match search(alloc, &candidates, &wanted, &mut tries) {
        Ok(set) => push_places(&mut text, set.as_slice())?,
        Err(SearchFault::NoVersion) => text.push_str("none")?,
        Err(SearchFault::NoMemory) => return Err(Fail::from("memory")),
    }
    if tries >= 400 {
        text.push_str(" after many tries")?;
    }
    Ok(text)
}

fn is_chosen(alloc: Global, line: &str) -> Result<bool, Fail> {
    let Some((rows, rest)) = line.split_once('|') else {
        return Ok(false);
    };
    let Some((words, places)) = rest.split_once('|') else {
        return Ok(false);
    };
    let text = found(alloc, rows, words)?;
    Ok(text.as_str() == places)
}

/// Each row ends in fewer than 400 tries.
#[test]
fn goes_back_to_what_took_part(rt: HostRuntime) -> Result<(), Fail> {
    let alloc = rt.alloc();
    for line in CLASHES.lines() {
        assert!(rt; is_chosen(alloc, line)?, "{line}");
    }
    Ok(())
}

#[test]
fn chooses_what_the_definitions_prefer(rt: HostRuntime) -> Result<(), Fail> {
    let alloc = rt.alloc();
    for line in LIBRARIES.lines() {
        assert!(rt; is_chosen(alloc, line)?, "{line}");
    }
    Ok(())
}
