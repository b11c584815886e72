//! What `check` answers to reports of almost split sequences.

use crate::tables::{holds, is_written_back};
use std::test::Fail;

const ROWS: &str = "
> the smallest almost split sequence | check
report 1
field 2
vertex 1
vertex 2
arrow a 1 2
bound 2
claim 1 line 6 basis
words 3
word @1
word @2
word a
steps 0
rules 0
module 1 right 1 0
claim 2 line 7 module 1
claim 3 line 8 hom 1 1 1
row 1
claim 4 line 8 local 1 using 3
ideal 0
power 1
residue frobenius
claim 5 line 8 resolution 1 1
term 0 1 1
gen 1
term 1 1 2
gen 1
module 2 right 0 1
module 3 right 1 1
at a 1
map 1 2 3
at 2 1
map 2 3 1
at 1 1
claim 6 line 8 almostsplit 2 3 1 1 2 using 5 4
phi 1
left
at 2 1
middle
at 1 1 1
at 2 1
end 6
< 0
holds 6
> a functional that is zero | check
report 1
field 2
vertex 1
vertex 2
arrow a 1 2
bound 2
claim 1 line 6 basis
words 3
word @1
word @2
word a
steps 0
rules 0
module 1 right 1 0
claim 2 line 7 module 1
claim 3 line 8 hom 1 1 1
row 1
claim 4 line 8 local 1 using 3
ideal 0
power 1
residue frobenius
claim 5 line 8 resolution 1 1
term 0 1 1
gen 1
term 1 1 2
gen 1
module 2 right 0 1
module 3 right 1 1
at a 1
map 1 2 3
at 2 1
map 2 3 1
at 1 1
claim 6 line 8 almostsplit 2 3 1 1 2 using 5 4
phi 0
left
at 2 1
middle
at 1 1 1
at 2 1
end 6
< 2
rejected 6 functional
> a first map that is zero | check
report 1
field 2
vertex 1
vertex 2
arrow a 1 2
bound 2
claim 1 line 6 basis
words 3
word @1
word @2
word a
steps 0
rules 0
module 1 right 1 0
claim 2 line 7 module 1
claim 3 line 8 hom 1 1 1
row 1
claim 4 line 8 local 1 using 3
ideal 0
power 1
residue frobenius
claim 5 line 8 resolution 1 1
term 0 1 1
gen 1
term 1 1 2
gen 1
module 2 right 0 1
module 3 right 1 1
at a 1
map 1 2 3
at 2 0
map 2 3 1
at 1 1
claim 6 line 8 almostsplit 2 3 1 1 2 using 5 4
phi 1
left
at 2 1
middle
at 1 1 1
at 2 1
end 6
< 2
rejected 6 maps
> a generator that goes to zero | check
report 1
field 2
vertex 1
vertex 2
arrow a 1 2
bound 2
claim 1 line 6 basis
words 3
word @1
word @2
word a
steps 0
rules 0
module 1 right 1 0
claim 2 line 7 module 1
claim 3 line 8 hom 1 1 1
row 1
claim 4 line 8 local 1 using 3
ideal 0
power 1
residue frobenius
claim 5 line 8 resolution 1 1
term 0 1 1
gen 1
term 1 1 2
gen 0
module 2 right 0 1
module 3 right 1 1
at a 1
map 1 2 3
at 2 1
map 2 3 1
at 1 1
claim 6 line 8 almostsplit 2 3 1 1 2 using 5 4
phi 1
left
at 2 1
middle
at 1 1 1
at 2 1
end 6
< 2
rejected 5 exact
> maps that go the other way | check
report 1
field 2
vertex 1
vertex 2
arrow a 1 2
bound 2
claim 1 line 6 basis
words 3
word @1
word @2
word a
steps 0
rules 0
module 1 right 1 0
claim 2 line 7 module 1
claim 3 line 8 hom 1 1 1
row 1
claim 4 line 8 local 1 using 3
ideal 0
power 1
residue frobenius
claim 5 line 8 resolution 1 1
term 0 1 1
gen 1
term 1 1 2
gen 1
module 2 right 0 1
module 3 right 1 1
at a 1
map 1 2 3
at 2 1
map 2 3 1
at 1 1
claim 6 line 8 almostsplit 2 3 1 2 1 using 5 4
phi 1
left
at 2 1
middle
at 1 1 1
at 2 1
end 6
< 2
rejected 6 objects
> a left end that is not embedded | check
report 1
field 2
vertex 1
vertex 2
arrow a 1 2
bound 2
claim 1 line 6 basis
words 3
word @1
word @2
word a
steps 0
rules 0
module 1 right 1 0
claim 2 line 7 module 1
claim 3 line 8 hom 1 1 1
row 1
claim 4 line 8 local 1 using 3
ideal 0
power 1
residue frobenius
claim 5 line 8 resolution 1 1
term 0 1 1
gen 1
term 1 1 2
gen 1
module 2 right 0 1
module 3 right 1 1
at a 1
map 1 2 3
at 2 1
map 2 3 1
at 1 1
claim 6 line 8 almostsplit 2 3 1 1 2 using 5 4
phi 1
left
at 2 0
middle
at 1 1 1
at 2 1
end 6
< 2
rejected 6 left
> a middle outside the pullback | check
report 1
field 2
vertex 1
vertex 2
arrow a 1 2
bound 2
claim 1 line 6 basis
words 3
word @1
word @2
word a
steps 0
rules 0
module 1 right 1 0
claim 2 line 7 module 1
claim 3 line 8 hom 1 1 1
row 1
claim 4 line 8 local 1 using 3
ideal 0
power 1
residue frobenius
claim 5 line 8 resolution 1 1
term 0 1 1
gen 1
term 1 1 2
gen 1
module 2 right 0 1
module 3 right 1 1
at a 1
map 1 2 3
at 2 1
map 2 3 1
at 1 1
claim 6 line 8 almostsplit 2 3 1 1 2 using 5 4
phi 1
left
at 2 1
middle
at 1 1 0
at 2 1
end 6
< 2
rejected 6 middle
> a projective right end | check
report 1
field 2
vertex 1
vertex 2
arrow a 1 2
bound 2
claim 1 line 6 basis
words 3
word @1
word @2
word a
steps 0
rules 0
module 1 right 0 1
claim 2 line 7 module 1
claim 3 line 8 hom 1 1 1
row 1
claim 4 line 8 local 1 using 3
ideal 0
power 1
residue frobenius
claim 5 line 8 resolution 1 1
term 0 1 2
gen 1
term 1 0
module 2 right 0 0
module 3 right 0 1
map 1 2 3
map 2 3 1
at 2 1
claim 6 line 8 almostsplit 2 3 1 1 2 using 5 4
phi 1
left
middle
at 2 1
end 6
< 2
rejected 6 nonprojective
> the Kronecker quiver | check
report 1
field 2
vertex 1
vertex 2
arrow a 1 2
arrow b 1 2
bound 2
claim 1 line 7 basis
words 4
word @1
word @2
word a
word b
steps 0
rules 0
module 1 right 1 0
claim 2 line 8 module 1
claim 3 line 9 hom 1 1 1
row 1
claim 4 line 9 local 1 using 3
ideal 0
power 1
residue frobenius
claim 5 line 9 resolution 1 1
term 0 1 1
gen 1
term 1 2 2 2
gen 1 0
gen 0 1
module 2 right 3 2
at a 1 0 / 0 0 / 0 1
at b 0 1 / 1 0 / 0 0
module 3 right 4 2
at a 1 0 / 0 0 / 0 1 / 0 0
at b 0 0 / 1 0 / 0 0 / 0 1
map 1 2 3
at 1 1 0 0 1 / 0 1 0 0 / 0 0 1 0
at 2 1 0 / 0 1
map 2 3 1
at 1 1 / 0 / 0 / 1
claim 6 line 9 almostsplit 2 3 1 1 2 using 5 4
phi 1
left
at 1 1 0 0 1 / 0 1 0 0 / 0 0 1 0
at 2 1 0 / 0 1
middle
at 1 1 0 0 0 1 / 0 1 0 0 0 / 0 0 1 0 0 / 0 0 0 1 1
at 2 1 0 / 0 1
end 6
< 0
holds 6";

pub(crate) fn rows() -> &'static str {
    ROWS
}

#[test]
fn sequence_reports_have_their_verdicts(rt: HostRuntime) -> Result<(), Fail> {
    for row in rows().split("\n> ").skip(1) {
        assert!(rt; holds(&rt, row)?, "{row}");
        assert!(rt; is_written_back(&rt, row)?, "{row}");
    }
    Ok(())
}
