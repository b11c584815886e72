//! What `check` answers to a report of a whole session over a preprojective algebra.

use crate::tables::{holds, is_written_back};
use std::test::Fail;

const ROWS: &str = "
> the preprojective algebra of three vertices | check
report 1
field 5
vertex 1
vertex 2
vertex 3
arrow a 1 2
arrow b 2 1
arrow c 2 3
arrow d 3 2
bound 3
relation a.b
relation b.a + 4*c.d
relation d.c
claim 1 line 13 basis
words 10
word @1
word @2
word @3
word a
word b
word c
word d
word a.c
word b.a
word d.b
steps 4
step 1 relation 1
step 2 relation 2
step 3 add 2 3 2
step 4 relation 3
rules 3
rule a.b -> 0 by 1
rule c.d -> b.a by 3
rule d.c -> 0 by 4
module 1 right 1 0 0
claim 2 line 14 module 1
claim 3 line 15 resolution 1 1
term 0 1 1
gen 1
term 1 1 2
gen 1
module 2 right 0 1 1
at c 0
at d 1
claim 4 line 15 tau 2 1 using 3
at 2 1 0
at 3 1
claim 5 line 16 hom 1 1 1
row 1
claim 6 line 16 local 1 using 5
ideal 0
power 1
residue frobenius
claim 7 line 16 resolution 1 1
term 0 1 1
gen 1
term 1 1 2
gen 1
module 3 right 0 1 1
at c 0
at d 1
module 4 right 1 1 1
at a 1
at b 0
at c 0
at d 1
map 1 3 4
at 2 1
at 3 1
map 2 4 1
at 1 1
claim 8 line 16 almostsplit 3 4 1 1 2 using 7 6
phi 1
left
at 2 1 0
at 3 1
middle
at 1 1 1
at 2 1 0
at 3 1
module 5 right 1 1 1
at a 1
at b 0
at c 0
at d 1
claim 9 line 17 hom 5 5 1
row 1 1 1
claim 10 line 17 local 5 using 9
ideal 0
power 1
residue frobenius
module 6 right 1 1 1
at a 1
at b 0
at c 0
at d 1
map 3 6 4
at 1 1
at 2 1
at 3 1
map 4 4 6
at 1 1
at 2 1
at 3 1
claim 11 line 17 decomposition 4 6 3 4 parts 5 10
module 7 right 0 1 0
claim 12 line 18 module 7
claim 13 line 19 resolution 7 1
term 0 1 2
gen 1
term 1 2 1 3
gen 1
gen 1
module 8 right 1 1 1
at a 0
at b 1
at c 4
at d 0
claim 14 line 19 tau 8 7 using 13
at 1 1 0
at 2 1 4
at 3 0 1
claim 15 line 20 hom 7 7 1
row 1
claim 16 line 20 local 7 using 15
ideal 0
power 1
residue frobenius
claim 17 line 20 resolution 7 1
term 0 1 2
gen 1
term 1 2 1 3
gen 1
gen 1
module 9 right 1 1 1
at a 0
at b 1
at c 4
at d 0
module 10 right 1 2 1
at a 0 0
at b 1 / 0
at c 0 / 1
at d 0 0
map 5 9 10
at 1 1
at 2 1 4
at 3 1
map 6 10 7
at 2 1 / 1
claim 18 line 20 almostsplit 9 10 7 5 6 using 17 16
phi 1
left
at 1 1 0
at 2 1 4
at 3 0 1
middle
at 1 1 0
at 2 1 0 1 / 0 1 1
at 3 0 1
module 11 right 0 1 1
at c 1
at d 0
claim 19 line 21 hom 11 11 1
row 1 1
claim 20 line 21 local 11 using 19
ideal 0
power 1
residue frobenius
module 12 right 1 1 0
at a 0
at b 1
claim 21 line 21 hom 12 12 1
row 1 1
claim 22 line 21 local 12 using 21
ideal 0
power 1
residue frobenius
module 13 right 1 2 1
at a 0 0
at b 0 / 1
at c 1 / 0
at d 0 0
map 7 13 10
at 1 1
at 2 0 1 / 1 0
at 3 1
map 8 10 13
at 1 1
at 2 0 1 / 1 0
at 3 1
claim 23 line 21 decomposition 10 13 7 8 parts 11 20 12 22
module 14 right 0 0 1
claim 24 line 22 module 14
claim 25 line 23 resolution 14 1
term 0 1 3
gen 1
term 1 1 2
gen 1
module 15 right 1 1 0
at a 1
at b 0
claim 26 line 23 tau 15 14 using 25
at 1 1
at 2 1 0
claim 27 line 24 hom 14 14 1
row 1
claim 28 line 24 local 14 using 27
ideal 0
power 1
residue frobenius
claim 29 line 24 resolution 14 1
term 0 1 3
gen 1
term 1 1 2
gen 1
module 16 right 1 1 0
at a 1
at b 0
module 17 right 1 1 1
at a 1
at b 0
at c 0
at d 1
map 9 16 17
at 1 1
at 2 1
map 10 17 14
at 3 1
claim 30 line 24 almostsplit 16 17 14 9 10 using 29 28
phi 1
left
at 1 1
at 2 1 0
middle
at 1 1
at 2 1 0
at 3 1 1
module 18 right 1 1 1
at a 1
at b 0
at c 0
at d 1
claim 31 line 25 hom 18 18 1
row 1 1 1
claim 32 line 25 local 18 using 31
ideal 0
power 1
residue frobenius
module 19 right 1 1 1
at a 1
at b 0
at c 0
at d 1
map 11 19 17
at 1 1
at 2 1
at 3 1
map 12 17 19
at 1 1
at 2 1
at 3 1
claim 33 line 25 decomposition 17 19 11 12 parts 18 32
end 33
< 0
holds 33
> a middle of which one row lies outside the pullback | check
report 1
field 5
vertex 1
vertex 2
vertex 3
arrow a 1 2
arrow b 2 1
arrow c 2 3
arrow d 3 2
bound 3
relation a.b
relation b.a + 4*c.d
relation d.c
claim 1 line 13 basis
words 10
word @1
word @2
word @3
word a
word b
word c
word d
word a.c
word b.a
word d.b
steps 4
step 1 relation 1
step 2 relation 2
step 3 add 2 3 2
step 4 relation 3
rules 3
rule a.b -> 0 by 1
rule c.d -> b.a by 3
rule d.c -> 0 by 4
module 1 right 1 0 0
claim 2 line 14 module 1
claim 3 line 15 resolution 1 1
term 0 1 1
gen 1
term 1 1 2
gen 1
module 2 right 0 1 1
at c 0
at d 1
claim 4 line 15 tau 2 1 using 3
at 2 1 0
at 3 1
claim 5 line 16 hom 1 1 1
row 1
claim 6 line 16 local 1 using 5
ideal 0
power 1
residue frobenius
claim 7 line 16 resolution 1 1
term 0 1 1
gen 1
term 1 1 2
gen 1
module 3 right 0 1 1
at c 0
at d 1
module 4 right 1 1 1
at a 1
at b 0
at c 0
at d 1
map 1 3 4
at 2 1
at 3 1
map 2 4 1
at 1 1
claim 8 line 16 almostsplit 3 4 1 1 2 using 7 6
phi 1
left
at 2 1 0
at 3 1
middle
at 1 1 1
at 2 1 0
at 3 1
module 5 right 1 1 1
at a 1
at b 0
at c 0
at d 1
claim 9 line 17 hom 5 5 1
row 1 1 1
claim 10 line 17 local 5 using 9
ideal 0
power 1
residue frobenius
module 6 right 1 1 1
at a 1
at b 0
at c 0
at d 1
map 3 6 4
at 1 1
at 2 1
at 3 1
map 4 4 6
at 1 1
at 2 1
at 3 1
claim 11 line 17 decomposition 4 6 3 4 parts 5 10
module 7 right 0 1 0
claim 12 line 18 module 7
claim 13 line 19 resolution 7 1
term 0 1 2
gen 1
term 1 2 1 3
gen 1
gen 1
module 8 right 1 1 1
at a 0
at b 1
at c 4
at d 0
claim 14 line 19 tau 8 7 using 13
at 1 1 0
at 2 1 4
at 3 0 1
claim 15 line 20 hom 7 7 1
row 1
claim 16 line 20 local 7 using 15
ideal 0
power 1
residue frobenius
claim 17 line 20 resolution 7 1
term 0 1 2
gen 1
term 1 2 1 3
gen 1
gen 1
module 9 right 1 1 1
at a 0
at b 1
at c 4
at d 0
module 10 right 1 2 1
at a 0 0
at b 1 / 0
at c 0 / 1
at d 0 0
map 5 9 10
at 1 1
at 2 1 4
at 3 1
map 6 10 7
at 2 1 / 1
claim 18 line 20 almostsplit 9 10 7 5 6 using 17 16
phi 1
left
at 1 1 0
at 2 1 4
at 3 0 1
middle
at 1 1 0
at 2 1 0 1 / 0 1 4
at 3 0 1
module 11 right 0 1 1
at c 1
at d 0
claim 19 line 21 hom 11 11 1
row 1 1
claim 20 line 21 local 11 using 19
ideal 0
power 1
residue frobenius
module 12 right 1 1 0
at a 0
at b 1
claim 21 line 21 hom 12 12 1
row 1 1
claim 22 line 21 local 12 using 21
ideal 0
power 1
residue frobenius
module 13 right 1 2 1
at a 0 0
at b 0 / 1
at c 1 / 0
at d 0 0
map 7 13 10
at 1 1
at 2 0 1 / 1 0
at 3 1
map 8 10 13
at 1 1
at 2 0 1 / 1 0
at 3 1
claim 23 line 21 decomposition 10 13 7 8 parts 11 20 12 22
module 14 right 0 0 1
claim 24 line 22 module 14
claim 25 line 23 resolution 14 1
term 0 1 3
gen 1
term 1 1 2
gen 1
module 15 right 1 1 0
at a 1
at b 0
claim 26 line 23 tau 15 14 using 25
at 1 1
at 2 1 0
claim 27 line 24 hom 14 14 1
row 1
claim 28 line 24 local 14 using 27
ideal 0
power 1
residue frobenius
claim 29 line 24 resolution 14 1
term 0 1 3
gen 1
term 1 1 2
gen 1
module 16 right 1 1 0
at a 1
at b 0
module 17 right 1 1 1
at a 1
at b 0
at c 0
at d 1
map 9 16 17
at 1 1
at 2 1
map 10 17 14
at 3 1
claim 30 line 24 almostsplit 16 17 14 9 10 using 29 28
phi 1
left
at 1 1
at 2 1 0
middle
at 1 1
at 2 1 0
at 3 1 1
module 18 right 1 1 1
at a 1
at b 0
at c 0
at d 1
claim 31 line 25 hom 18 18 1
row 1 1 1
claim 32 line 25 local 18 using 31
ideal 0
power 1
residue frobenius
module 19 right 1 1 1
at a 1
at b 0
at c 0
at d 1
map 11 19 17
at 1 1
at 2 1
at 3 1
map 12 17 19
at 1 1
at 2 1
at 3 1
claim 33 line 25 decomposition 17 19 11 12 parts 18 32
end 33
< 2
rejected 18 middle";

pub(crate) fn rows() -> &'static str {
    ROWS
}

#[test]
fn long_reports_have_their_verdicts(rt: HostRuntime) -> Result<(), Fail> {
    for row in rows().split("\n> ").skip(1) {
        assert!(rt; holds(&rt, row)?, "{row}");
        assert!(rt; is_written_back(&rt, row)?, "{row}");
    }
    Ok(())
}
