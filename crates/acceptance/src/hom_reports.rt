//! What `check` answers to reports of bases of homomorphisms.

use crate::tables::{holds, is_written_back};
use std::test::Fail;

const ROWS: &str = "
> a basis of homomorphisms | check
report 1
field 2
vertex 1
vertex 2
arrow a 1 2
arrow b 1 2
bound 2
claim 1 line 7 basis
words 4
word @1
word @2
word a
word b
steps 0
rules 0
module 1 right 2 2
at a 1 0 / 0 1
at b 0 1 / 1 1
claim 2 line 8 module 1
claim 3 line 12 hom 1 1 2
row 1 0 0 1 1 0 0 1
row 0 1 1 1 0 1 1 1
end 3
< 0
holds 3
> a row too few | check
report 1
field 2
vertex 1
vertex 2
arrow a 1 2
arrow b 1 2
bound 2
claim 1 line 7 basis
words 4
word @1
word @2
word a
word b
steps 0
rules 0
module 1 right 2 2
at a 1 0 / 0 1
at b 0 1 / 1 1
claim 2 line 8 module 1
claim 3 line 12 hom 1 1 1
row 1 0 0 1 1 0 0 1
end 3
< 2
rejected 3 all
> rows that are not in reduced row form | check
report 1
field 2
vertex 1
vertex 2
arrow a 1 2
arrow b 1 2
bound 2
claim 1 line 7 basis
words 4
word @1
word @2
word a
word b
steps 0
rules 0
module 1 right 2 2
at a 1 0 / 0 1
at b 0 1 / 1 1
claim 2 line 8 module 1
claim 3 line 12 hom 1 1 2
row 0 1 1 1 0 1 1 1
row 1 0 0 1 1 0 0 1
end 3
< 2
rejected 3 reduced
> a row that is no homomorphism | check
report 1
field 2
vertex 1
vertex 2
arrow a 1 2
arrow b 1 2
bound 2
claim 1 line 7 basis
words 4
word @1
word @2
word a
word b
steps 0
rules 0
module 1 right 2 2
at a 1 0 / 0 1
at b 0 1 / 1 1
claim 2 line 8 module 1
claim 3 line 12 hom 1 1 1
row 1 0 0 0 0 0 0 0
end 3
< 2
rejected 3 homs
> fewer rows than were said | check
report 1
field 2
vertex 1
vertex 2
arrow a 1 2
arrow b 1 2
bound 2
claim 1 line 7 basis
words 4
word @1
word @2
word a
word b
steps 0
rules 0
module 1 right 2 2
at a 1 0 / 0 1
at b 0 1 / 1 1
claim 2 line 8 module 1
claim 3 line 12 hom 1 1 2
row 1 0 0 1 1 0 0 1
end 3
< 3
badtext 22
> a row of another length | check
report 1
field 2
vertex 1
vertex 2
arrow a 1 2
arrow b 1 2
bound 2
claim 1 line 7 basis
words 4
word @1
word @2
word a
word b
steps 0
rules 0
module 1 right 2 2
at a 1 0 / 0 1
at b 0 1 / 1 1
claim 2 line 8 module 1
claim 3 line 12 hom 1 1 2
row 1 0 0 1 1 0 0 1
row 0 1 1 1 0 1 1
end 3
< 3
badtext 22
> more rows than unknowns | check
report 1
field 2
vertex 1
vertex 2
arrow a 1 2
arrow b 1 2
bound 2
claim 1 line 7 basis
words 4
word @1
word @2
word a
word b
steps 0
rules 0
module 1 right 2 2
at a 1 0 / 0 1
at b 0 1 / 1 1
claim 2 line 8 module 1
claim 3 line 12 hom 1 1 9
row 1 0 0 1 1 0 0 1
row 0 1 1 1 0 1 1 1
end 3
< 3
badtext 20
> homomorphisms between two sides | check
report 1
field 2
vertex 1
vertex 2
arrow a 1 2
bound 2
claim 1 line 6 basis
words 3
word @1
word @2
word a
steps 0
rules 0
module 1 right 1 0
claim 2 line 7 module 1
module 2 left 1 0
claim 3 line 8 module 2
claim 4 line 9 hom 1 2 0
end 4
< 2
rejected 4 objects
> no homomorphisms | check
report 1
field 2
vertex 1
vertex 2
arrow a 1 2
bound 2
claim 1 line 6 basis
words 3
word @1
word @2
word a
steps 0
rules 0
module 1 right 1 0
claim 2 line 7 module 1
module 2 right 0 1
claim 3 line 8 module 2
claim 4 line 9 hom 1 2 0
end 4
< 0
holds 4";

fn rows() -> &'static str {
    ROWS
}

#[test]
fn hom_reports_have_their_verdicts(rt: HostRuntime) -> Result<(), Fail> {
    for row in rows().split("\n> ").skip(1) {
        assert!(rt; holds(&rt, row)?, "{row}");
        assert!(rt; is_written_back(&rt, row)?, "{row}");
    }
    Ok(())
}
