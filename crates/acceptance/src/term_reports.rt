//! What `check` answers to reports of resolutions and extensions.

use crate::tables::{holds, is_written_back};
use std::test::Fail;

const ROWS: &str = "
> a resolution that never ends, and extensions | check
report 1
field 2
vertex v
arrow x v v
bound 3
claim 1 line 5 basis
words 3
word @v
word x
word x.x
steps 0
rules 0
module 1 right 1
at x 0
claim 2 line 6 module 1
claim 3 line 7 resolution 1 6
term 0 1 v
gen 1
term 1 1 v
gen 0 1 0
term 2 1 v
gen 0 0 1
term 3 1 v
gen 0 1 0
term 4 1 v
gen 0 0 1
term 5 1 v
gen 0 1 0
term 6 1 v
gen 0 0 1
claim 4 line 8 resolution 1 3
term 0 1 v
gen 1
term 1 1 v
gen 0 1 0
term 2 1 v
gen 0 0 1
term 3 1 v
gen 0 1 0
claim 5 line 8 ext 2 1 1 1 using 4
row 1
end 5
< 0
holds 5
> an extension that is zero | check
report 1
field 2
vertex v
arrow x v v
bound 3
claim 1 line 5 basis
words 3
word @v
word x
word x.x
steps 0
rules 0
module 1 right 1
at x 0
claim 2 line 6 module 1
claim 3 line 7 resolution 1 6
term 0 1 v
gen 1
term 1 1 v
gen 0 1 0
term 2 1 v
gen 0 0 1
term 3 1 v
gen 0 1 0
term 4 1 v
gen 0 0 1
term 5 1 v
gen 0 1 0
term 6 1 v
gen 0 0 1
claim 4 line 8 resolution 1 3
term 0 1 v
gen 1
term 1 1 v
gen 0 1 0
term 2 1 v
gen 0 0 1
term 3 1 v
gen 0 1 0
claim 5 line 8 ext 2 1 1 1 using 4
row 0
end 5
< 2
rejected 5 reduced
> a presentation | check
report 1
field 2
vertex v
arrow x v v
bound 3
claim 1 line 5 basis
words 3
word @v
word x
word x.x
steps 0
rules 0
module 1 right 1
at x 0
claim 2 line 6 module 1
claim 3 line 7 resolution 1 1
term 0 1 v
gen 1
term 1 1 v
gen 0 1 0
end 3
< 0
holds 3
> a composite that is not zero | check
report 1
field 2
vertex v
arrow x v v
bound 3
claim 1 line 5 basis
words 3
word @v
word x
word x.x
steps 0
rules 0
module 1 right 1
at x 0
claim 2 line 6 module 1
claim 3 line 7 resolution 1 1
term 0 1 v
gen 1
term 1 1 v
gen 1 0 0
end 3
< 2
rejected 3 complex
> a kernel that is not covered | check
report 1
field 2
vertex v
arrow x v v
bound 3
claim 1 line 5 basis
words 3
word @v
word x
word x.x
steps 0
rules 0
module 1 right 1
at x 0
claim 2 line 6 module 1
claim 3 line 7 resolution 1 1
term 0 1 v
gen 1
term 1 1 v
gen 0 0 1
end 3
< 2
rejected 3 exact
> a generator too many | check
report 1
field 2
vertex v
arrow x v v
bound 3
claim 1 line 5 basis
words 3
word @v
word x
word x.x
steps 0
rules 0
module 1 right 1
at x 0
claim 2 line 6 module 1
claim 3 line 7 resolution 1 1
term 0 1 v
gen 1
term 1 2 v v
gen 0 1 0
gen 0 0 1
end 3
< 2
rejected 3 minimal
> another generator than the canonical one | check
report 1
field 2
vertex v
arrow x v v
bound 3
claim 1 line 5 basis
words 3
word @v
word x
word x.x
steps 0
rules 0
module 1 right 1
at x 0
claim 2 line 6 module 1
claim 3 line 7 resolution 1 1
term 0 1 v
gen 1
term 1 1 v
gen 0 1 1
end 3
< 2
rejected 3 choice
> a generator's row of another length | check
report 1
field 2
vertex v
arrow x v v
bound 3
claim 1 line 5 basis
words 3
word @v
word x
word x.x
steps 0
rules 0
module 1 right 1
at x 0
claim 2 line 6 module 1
claim 3 line 7 resolution 1 1
term 0 1 v
gen 1
term 1 1 v
gen 0 1
end 3
< 3
badtext 20
> terms out of order | check
report 1
field 2
vertex v
arrow x v v
bound 3
claim 1 line 5 basis
words 3
word @v
word x
word x.x
steps 0
rules 0
module 1 right 1
at x 0
claim 2 line 6 module 1
claim 3 line 7 resolution 1 1
term 0 1 v
gen 1
term 2 1 v
gen 0 1 0
end 3
< 3
badtext 19
> a resolution that is too long | check
report 1
field 2
vertex v
arrow x v v
bound 3
claim 1 line 5 basis
words 3
word @v
word x
word x.x
steps 0
rules 0
module 1 right 1
at x 0
claim 2 line 6 module 1
claim 3 line 7 resolution 1 17
term 0 1 v
gen 1
term 1 1 v
gen 0 1 0
end 3
< 3
badtext 16
> extensions over a resolution of another length | check
report 1
field 2
vertex v
arrow x v v
bound 3
claim 1 line 5 basis
words 3
word @v
word x
word x.x
steps 0
rules 0
module 1 right 1
at x 0
claim 2 line 6 module 1
claim 3 line 7 resolution 1 6
term 0 1 v
gen 1
term 1 1 v
gen 0 1 0
term 2 1 v
gen 0 0 1
term 3 1 v
gen 0 1 0
term 4 1 v
gen 0 0 1
term 5 1 v
gen 0 1 0
term 6 1 v
gen 0 0 1
claim 4 line 8 resolution 1 3
term 0 1 v
gen 1
term 1 1 v
gen 0 1 0
term 2 1 v
gen 0 0 1
term 3 1 v
gen 0 1 0
claim 5 line 8 ext 2 1 1 1 using 3
row 1
end 5
< 3
badtext 40";

fn rows() -> &'static str {
    ROWS
}

#[test]
fn term_reports_have_their_verdicts(rt: HostRuntime) -> Result<(), Fail> {
    for row in rows().split("\n> ").skip(1) {
        assert!(rt; holds(&rt, row)?, "{row}");
        assert!(rt; is_written_back(&rt, row)?, "{row}");
    }
    Ok(())
}
