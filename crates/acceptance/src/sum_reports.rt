//! What `check` answers to reports of sums and their parts, and to reports that end with a refusal.

use crate::tables::{holds, is_written_back};
use std::test::Fail;

const ROWS: &str = "
> a hidden splitting | check
report 1
field 3
vertex 1
vertex 2
arrow a 1 2
arrow b 1 2
bound 2
claim 1 line 7 basis
words 4
word @1
word @2
word a
word b
steps 0
rules 0
module 1 right 2 2
at a 1 0 / 0 1
at b 2 1 / 1 2
claim 2 line 8 module 1
module 2 right 1 1
at a 1
at b 0
claim 3 line 12 hom 2 2 1
row 1 1
claim 4 line 12 local 2 using 3
ideal 0
power 1
residue frobenius
module 3 right 1 1
at a 1
at b 1
claim 5 line 12 hom 3 3 1
row 1 1
claim 6 line 12 local 3 using 5
ideal 0
power 1
residue frobenius
module 4 right 2 2
at a 1 0 / 0 1
at b 0 0 / 0 1
map 1 4 1
at 1 1 1 / 1 2
at 2 1 1 / 1 2
map 2 1 4
at 1 2 2 / 2 1
at 2 2 2 / 2 1
claim 7 line 12 decomposition 1 4 1 2 parts 2 4 3 6
end 7
< 0
holds 7
> a module with itself | check
report 1
field 2
vertex 1
vertex 2
arrow a 1 2
arrow b 1 2
bound 2
claim 1 line 7 basis
words 4
word @1
word @2
word a
word b
steps 0
rules 0
module 1 right 2 2
at a 1 0 / 0 1
at b 0 1 / 1 1
claim 2 line 8 module 1
module 2 right 4 4
at a 1 0 0 0 / 0 1 0 0 / 0 0 1 0 / 0 0 0 1
at b 0 1 0 0 / 1 1 0 0 / 0 0 0 1 / 0 0 1 1
claim 3 line 12 module 2
module 3 right 2 2
at a 1 0 / 0 1
at b 0 1 / 1 1
claim 4 line 13 hom 3 3 2
row 1 0 0 1 1 0 0 1
row 0 1 1 1 0 1 1 1
claim 5 line 13 local 3 using 4
ideal 0
power 1
residue frobenius
module 4 right 2 2
at a 1 0 / 0 1
at b 0 1 / 1 1
claim 6 line 13 hom 4 4 2
row 1 0 0 1 1 0 0 1
row 0 1 1 1 0 1 1 1
claim 7 line 13 local 4 using 6
ideal 0
power 1
residue frobenius
module 5 right 4 4
at a 1 0 0 0 / 0 1 0 0 / 0 0 1 0 / 0 0 0 1
at b 0 1 0 0 / 1 1 0 0 / 0 0 0 1 / 0 0 1 1
map 1 5 2
at 1 1 0 0 0 / 0 1 0 0 / 0 0 1 0 / 0 0 0 1
at 2 1 0 0 0 / 0 1 0 0 / 0 0 1 0 / 0 0 0 1
map 2 2 5
at 1 1 0 0 0 / 0 1 0 0 / 0 0 1 0 / 0 0 0 1
at 2 1 0 0 0 / 0 1 0 0 / 0 0 1 0 / 0 0 0 1
claim 8 line 13 decomposition 2 5 1 2 parts 3 5 4 7
end 8
< 0
holds 8
> a relation that fails | check
report 1
field 2
vertex 1
vertex 2
vertex 3
arrow a 1 2
arrow b 2 3
bound 3
relation a.b
claim 1 line 9 basis
words 5
word @1
word @2
word @3
word a
word b
steps 1
step 1 relation 1
rules 1
rule a.b -> 0 by 1
refused 10 RelationFails 1
< 0
holds 1
> a path of the bound's length | check
report 1
field 2
vertex 1
vertex 2
vertex 3
arrow a 1 2
arrow b 2 3
bound 2
claim 1 line 8 basis
words 5
word @1
word @2
word @3
word a
word b
steps 0
rules 0
refused 9 BoundFails a.b
< 0
holds 1";

fn rows() -> &'static str {
    ROWS
}

#[test]
fn sum_reports_have_their_verdicts(rt: HostRuntime) -> Result<(), Fail> {
    for row in rows().split("\n> ").skip(1) {
        assert!(rt; holds(&rt, row)?, "{row}");
        assert!(rt; is_written_back(&rt, row)?, "{row}");
    }
    Ok(())
}
