//! What `check` answers to reports of local modules and decompositions.

use crate::tables::{holds, is_written_back};
use std::test::Fail;

const ROWS: &str = "
> a local module whose endomorphisms are a field of four elements | check
report 1
field 2
vertex 1
vertex 2
arrow a 1 2
arrow b 1 2
bound 2
claim 1 line 7 basis
words 4
word @1
word @2
word a
word b
steps 0
rules 0
module 1 right 2 2
at a 1 0 / 0 1
at b 0 1 / 1 1
claim 2 line 8 module 1
module 2 right 2 2
at a 1 0 / 0 1
at b 0 1 / 1 1
claim 3 line 12 hom 2 2 2
row 1 0 0 1 1 0 0 1
row 0 1 1 1 0 1 1 1
claim 4 line 12 local 2 using 3
ideal 0
power 1
residue frobenius
module 3 right 2 2
at a 1 0 / 0 1
at b 0 1 / 1 1
map 1 3 1
at 1 1 0 / 0 1
at 2 1 0 / 0 1
map 2 1 3
at 1 1 0 / 0 1
at 2 1 0 / 0 1
claim 5 line 12 decomposition 1 3 1 2 parts 2 4
end 5
< 0
holds 5
> another form of the residue ring | check
report 1
field 2
vertex 1
vertex 2
arrow a 1 2
arrow b 1 2
bound 2
claim 1 line 7 basis
words 4
word @1
word @2
word a
word b
steps 0
rules 0
module 1 right 2 2
at a 1 0 / 0 1
at b 0 1 / 1 1
claim 2 line 8 module 1
module 2 right 2 2
at a 1 0 / 0 1
at b 0 1 / 1 1
claim 3 line 12 hom 2 2 2
row 1 0 0 1 1 0 0 1
row 0 1 1 1 0 1 1 1
claim 4 line 12 local 2 using 3
ideal 0
power 1
residue listed
module 3 right 2 2
at a 1 0 / 0 1
at b 0 1 / 1 1
map 1 3 1
at 1 1 0 / 0 1
at 2 1 0 / 0 1
map 2 1 3
at 1 1 0 / 0 1
at 2 1 0 / 0 1
claim 5 line 12 decomposition 1 3 1 2 parts 2 4
end 5
< 2
rejected 4 residue
> half of the endomorphisms | check
report 1
field 2
vertex 1
vertex 2
arrow a 1 2
arrow b 1 2
bound 2
claim 1 line 7 basis
words 4
word @1
word @2
word a
word b
steps 0
rules 0
module 1 right 2 2
at a 1 0 / 0 1
at b 0 1 / 1 1
claim 2 line 8 module 1
module 2 right 2 2
at a 1 0 / 0 1
at b 0 1 / 1 1
claim 3 line 12 hom 2 2 1
row 1 0 0 1 1 0 0 1
claim 4 line 12 local 2 using 3
ideal 0
power 1
residue frobenius
module 3 right 2 2
at a 1 0 / 0 1
at b 0 1 / 1 1
map 1 3 1
at 1 1 0 / 0 1
at 2 1 0 / 0 1
map 2 1 3
at 1 1 0 / 0 1
at 2 1 0 / 0 1
claim 5 line 12 decomposition 1 3 1 2 parts 2 4
end 5
< 2
rejected 3 all
> a power that is too large | check
report 1
field 2
vertex 1
vertex 2
arrow a 1 2
arrow b 1 2
bound 2
claim 1 line 7 basis
words 4
word @1
word @2
word a
word b
steps 0
rules 0
module 1 right 2 2
at a 1 0 / 0 1
at b 0 1 / 1 1
claim 2 line 8 module 1
module 2 right 2 2
at a 1 0 / 0 1
at b 0 1 / 1 1
claim 3 line 12 hom 2 2 2
row 1 0 0 1 1 0 0 1
row 0 1 1 1 0 1 1 1
claim 4 line 12 local 2 using 3
ideal 0
power 2
residue frobenius
module 3 right 2 2
at a 1 0 / 0 1
at b 0 1 / 1 1
map 1 3 1
at 1 1 0 / 0 1
at 2 1 0 / 0 1
map 2 1 3
at 1 1 0 / 0 1
at 2 1 0 / 0 1
claim 5 line 12 decomposition 1 3 1 2 parts 2 4
end 5
< 2
rejected 4 power
> a power that is none | check
report 1
field 2
vertex 1
vertex 2
arrow a 1 2
arrow b 1 2
bound 2
claim 1 line 7 basis
words 4
word @1
word @2
word a
word b
steps 0
rules 0
module 1 right 2 2
at a 1 0 / 0 1
at b 0 1 / 1 1
claim 2 line 8 module 1
module 2 right 2 2
at a 1 0 / 0 1
at b 0 1 / 1 1
claim 3 line 12 hom 2 2 2
row 1 0 0 1 1 0 0 1
row 0 1 1 1 0 1 1 1
claim 4 line 12 local 2 using 3
ideal 0
power 0
residue frobenius
module 3 right 2 2
at a 1 0 / 0 1
at b 0 1 / 1 1
map 1 3 1
at 1 1 0 / 0 1
at 2 1 0 / 0 1
map 2 1 3
at 1 1 0 / 0 1
at 2 1 0 / 0 1
claim 5 line 12 decomposition 1 3 1 2 parts 2 4
end 5
< 3
badtext 28
> a part that is claimed by another module's certificate | check
report 1
field 2
vertex 1
vertex 2
arrow a 1 2
arrow b 1 2
bound 2
claim 1 line 7 basis
words 4
word @1
word @2
word a
word b
steps 0
rules 0
module 1 right 2 2
at a 1 0 / 0 1
at b 0 1 / 1 1
claim 2 line 8 module 1
module 2 right 2 2
at a 1 0 / 0 1
at b 0 1 / 1 1
claim 3 line 12 hom 2 2 2
row 1 0 0 1 1 0 0 1
row 0 1 1 1 0 1 1 1
claim 4 line 12 local 2 using 3
ideal 0
power 1
residue frobenius
module 3 right 2 2
at a 1 0 / 0 1
at b 0 1 / 1 1
map 1 3 1
at 1 1 0 / 0 1
at 2 1 0 / 0 1
map 2 1 3
at 1 1 0 / 0 1
at 2 1 0 / 0 1
claim 5 line 12 decomposition 1 3 1 2 parts 3 4
end 5
< 2
rejected 5 objects
> a part that names a claim of another kind | check
report 1
field 2
vertex 1
vertex 2
arrow a 1 2
arrow b 1 2
bound 2
claim 1 line 7 basis
words 4
word @1
word @2
word a
word b
steps 0
rules 0
module 1 right 2 2
at a 1 0 / 0 1
at b 0 1 / 1 1
claim 2 line 8 module 1
module 2 right 2 2
at a 1 0 / 0 1
at b 0 1 / 1 1
claim 3 line 12 hom 2 2 2
row 1 0 0 1 1 0 0 1
row 0 1 1 1 0 1 1 1
claim 4 line 12 local 2 using 3
ideal 0
power 1
residue frobenius
module 3 right 2 2
at a 1 0 / 0 1
at b 0 1 / 1 1
map 1 3 1
at 1 1 0 / 0 1
at 2 1 0 / 0 1
map 2 1 3
at 1 1 0 / 0 1
at 2 1 0 / 0 1
claim 5 line 12 decomposition 1 3 1 2 parts 2 3
end 5
< 3
badtext 39
> the zero module | check
report 1
field 2
vertex 1
vertex 2
arrow a 1 2
bound 2
claim 1 line 6 basis
words 3
word @1
word @2
word a
steps 0
rules 0
module 1 right 0 0
claim 2 line 7 module 1
claim 3 line 9 resolution 1 2
term 0 0
term 1 0
term 2 0
claim 4 line 10 hom 1 1 0
module 2 right 0 0
map 1 2 1
map 2 1 2
claim 5 line 11 decomposition 1 2 1 2 parts
end 5
< 0
holds 5
> a projective module is no right end | check
report 1
field 2
vertex 1
vertex 2
arrow a 1 2
bound 2
claim 1 line 6 basis
words 3
word @1
word @2
word a
steps 0
rules 0
module 1 right 1 1
at a 1
claim 2 line 7 module 1
claim 3 line 8 hom 1 1 1
row 1 1
claim 4 line 8 local 1 using 3
ideal 0
power 1
residue frobenius
claim 5 line 8 resolution 1 1
term 0 1 1
gen 1
term 1 0
refused 8 Projective
< 0
holds 5";

pub(crate) fn rows() -> &'static str {
    ROWS
}

#[test]
fn local_reports_have_their_verdicts(rt: HostRuntime) -> Result<(), Fail> {
    for row in rows().split("\n> ").skip(1) {
        assert!(rt; holds(&rt, row)?, "{row}");
        assert!(rt; is_written_back(&rt, row)?, "{row}");
    }
    Ok(())
}
