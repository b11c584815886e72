//! What `check` answers to reports of almost split sequences over a loop.

use crate::tables::{holds, is_written_back};
use std::test::Fail;

const ROWS: &str = "
> a projective summand in the middle | check
report 1
field 2
vertex v
arrow x v v
bound 3
claim 1 line 5 basis
words 3
word @v
word x
word x.x
steps 0
rules 0
module 1 right 2
at x 0 1 / 0 0
claim 2 line 6 module 1
claim 3 line 9 hom 1 1 2
row 1 0 0 1
row 0 1 0 0
claim 4 line 9 local 1 using 3
ideal 1
row 0 1
power 2
residue frobenius
claim 5 line 9 resolution 1 1
term 0 1 v
gen 1 0
term 1 1 v
gen 0 0 1
module 2 right 2
at x 0 0 / 1 0
module 3 right 4
at x 0 0 0 0 / 1 0 0 0 / 0 1 0 1 / 0 0 0 0
map 1 2 3
at v 1 0 0 0 / 0 1 0 0
map 2 3 1
at v 0 0 / 0 0 / 1 0 / 0 1
claim 6 line 9 almostsplit 2 3 1 1 2 using 5 4
phi 1 0
left
at v 1 0 0 / 0 1 0
middle
at v 1 0 0 0 0 / 0 1 0 0 0 / 0 0 1 1 0 / 0 0 0 0 1
end 6
< 0
holds 6
> two faults, of which the first is named | check
report 1
field 2
vertex v
arrow x v v
bound 3
claim 1 line 5 basis
words 3
word @v
word x
word x.x
steps 0
rules 0
module 1 right 2
at x 1 0 / 0 0
claim 2 line 6 module 1
claim 3 line 9 hom 1 1 2
row 1 0 0 1
row 0 1 0 0
claim 4 line 9 local 1 using 3
ideal 1
row 0 1
power 2
residue frobenius
claim 5 line 9 resolution 1 1
term 0 1 v
gen 1 0
term 1 1 v
gen 0 1 0
module 2 right 2
at x 0 0 / 1 0
module 3 right 4
at x 0 0 0 0 / 1 0 0 0 / 0 1 0 1 / 0 0 0 0
map 1 2 3
at v 1 0 0 0 / 0 1 0 0
map 2 3 1
at v 0 0 / 0 0 / 1 0 / 0 1
claim 6 line 9 almostsplit 2 3 1 1 2 using 5 4
phi 1 0
left
at v 1 0 0 / 0 1 0
middle
at v 1 0 0 0 0 / 0 1 0 0 0 / 0 0 1 1 0 / 0 0 0 0 1
end 6
< 2
rejected 2 relations
> a longer loop | check
report 1
field 2
vertex v
arrow x v v
bound 4
claim 1 line 5 basis
words 4
word @v
word x
word x.x
word x.x.x
steps 0
rules 0
module 1 right 2
at x 0 1 / 0 0
claim 2 line 6 module 1
claim 3 line 9 hom 1 1 2
row 1 0 0 1
row 0 1 0 0
claim 4 line 9 local 1 using 3
ideal 1
row 0 1
power 2
residue frobenius
claim 5 line 9 resolution 1 1
term 0 1 v
gen 1 0
term 1 1 v
gen 0 0 1 0
module 2 right 2
at x 0 0 / 1 0
module 3 right 4
at x 0 0 0 0 / 1 0 0 0 / 0 1 0 1 / 0 0 0 0
map 1 2 3
at v 1 0 0 0 / 0 1 0 0
map 2 3 1
at v 0 0 / 0 0 / 1 0 / 0 1
claim 6 line 9 almostsplit 2 3 1 1 2 using 5 4
phi 1 0
left
at v 1 0 0 0 / 0 1 0 0
middle
at v 1 0 0 0 0 0 / 0 1 0 0 0 0 / 0 0 1 0 1 0 / 0 0 0 0 0 1
end 6
< 0
holds 6
> another functional | check
report 1
field 2
vertex v
arrow x v v
bound 4
claim 1 line 5 basis
words 4
word @v
word x
word x.x
word x.x.x
steps 0
rules 0
module 1 right 2
at x 0 1 / 0 0
claim 2 line 6 module 1
claim 3 line 9 hom 1 1 2
row 1 0 0 1
row 0 1 0 0
claim 4 line 9 local 1 using 3
ideal 1
row 0 1
power 2
residue frobenius
claim 5 line 9 resolution 1 1
term 0 1 v
gen 1 0
term 1 1 v
gen 0 0 1 0
module 2 right 2
at x 0 0 / 1 0
module 3 right 4
at x 0 0 0 0 / 1 0 0 0 / 0 1 0 1 / 0 0 0 0
map 1 2 3
at v 1 0 0 0 / 0 1 0 0
map 2 3 1
at v 0 0 / 0 0 / 1 0 / 0 1
claim 6 line 9 almostsplit 2 3 1 1 2 using 5 4
phi 0 1
left
at v 1 0 0 0 / 0 1 0 0
middle
at v 1 0 0 0 0 0 / 0 1 0 0 0 0 / 0 0 1 0 1 0 / 0 0 0 0 0 1
end 6
< 2
rejected 6 functional
> an exact sequence that does not split, with a projective middle | check
report 1
field 2
vertex v
arrow x v v
bound 4
claim 1 line 5 basis
words 4
word @v
word x
word x.x
word x.x.x
steps 0
rules 0
module 1 right 2
at x 0 1 / 0 0
claim 2 line 6 module 1
claim 3 line 9 hom 1 1 2
row 1 0 0 1
row 0 1 0 0
claim 4 line 9 local 1 using 3
ideal 1
row 0 1
power 2
residue frobenius
claim 5 line 9 resolution 1 1
term 0 1 v
gen 1 0
term 1 1 v
gen 0 0 1 0
module 2 right 2
at x 0 0 / 1 0
module 3 right 4
at x 0 0 0 0 / 1 0 0 0 / 0 1 0 0 / 0 0 1 0
map 1 2 3
at v 1 0 0 0 / 0 1 0 0
map 2 3 1
at v 0 0 / 0 0 / 0 1 / 1 0
claim 6 line 9 almostsplit 2 3 1 1 2 using 5 4
phi 0 1
left
at v 1 0 0 0 / 0 1 0 0
middle
at v 1 0 0 0 0 0 / 0 1 0 0 0 0 / 0 0 1 0 0 1 / 0 0 0 1 1 0
end 6
< 2
rejected 6 functional";

pub(crate) fn rows() -> &'static str {
    ROWS
}

#[test]
fn loop_sequences_have_their_verdicts(rt: HostRuntime) -> Result<(), Fail> {
    for row in rows().split("\n> ").skip(1) {
        assert!(rt; holds(&rt, row)?, "{row}");
        assert!(rt; is_written_back(&rt, row)?, "{row}");
    }
    Ok(())
}
