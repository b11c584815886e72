//! What `check` answers to reports of translates.

use crate::tables::{holds, is_written_back};
use std::test::Fail;

const ROWS: &str = "
> a translate over the Kronecker quiver | check
report 1
field 2
vertex 1
vertex 2
arrow a 1 2
arrow b 1 2
bound 2
claim 1 line 7 basis
words 4
word @1
word @2
word a
word b
steps 0
rules 0
module 1 right 1 0
claim 2 line 8 module 1
claim 3 line 9 resolution 1 1
term 0 1 1
gen 1
term 1 2 2 2
gen 1 0
gen 0 1
module 2 right 3 2
at a 1 0 / 0 0 / 0 1
at b 0 1 / 1 0 / 0 0
claim 4 line 9 tau 2 1 using 3
at 1 1 0 0 1 / 0 1 0 0 / 0 0 1 0
at 2 1 0 / 0 1
end 4
< 0
holds 4
> an embedding that is not in reduced row form | check
report 1
field 2
vertex 1
vertex 2
arrow a 1 2
arrow b 1 2
bound 2
claim 1 line 7 basis
words 4
word @1
word @2
word a
word b
steps 0
rules 0
module 1 right 1 0
claim 2 line 8 module 1
claim 3 line 9 resolution 1 1
term 0 1 1
gen 1
term 1 2 2 2
gen 1 0
gen 0 1
module 2 right 3 2
at a 1 0 / 0 0 / 0 1
at b 0 1 / 1 0 / 0 0
claim 4 line 9 tau 2 1 using 3
at 1 1 0 0 1 / 0 1 0 0 / 0 0 1 0
at 2 0 1 / 1 0
end 4
< 2
rejected 4 reduced
> a translate of the other side | check
report 1
field 2
vertex 1
vertex 2
arrow a 1 2
arrow b 1 2
bound 2
claim 1 line 7 basis
words 4
word @1
word @2
word a
word b
steps 0
rules 0
module 1 right 1 0
claim 2 line 8 module 1
claim 3 line 9 resolution 1 1
term 0 1 1
gen 1
term 1 2 2 2
gen 1 0
gen 0 1
module 2 left 3 2
at a 1 0 0 / 0 0 1
at b 0 1 0 / 1 0 0
claim 4 line 9 tau 2 1 using 3
at 1 1 0 0 1 / 0 1 0 0 / 0 0 1 0
at 2 1 0 / 0 1
end 4
< 2
rejected 4 objects
> an inverse translate | check
report 1
field 2
vertex 1
vertex 2
arrow a 1 2
bound 2
claim 1 line 6 basis
words 3
word @1
word @2
word a
steps 0
rules 0
module 1 right 0 1
claim 2 line 7 module 1
module 2 left 0 1
claim 3 line 8 resolution 2 1
term 0 1 2
gen 1
term 1 1 1
gen 1
module 3 right 1 0
claim 4 line 8 taui 3 1 2 using 3
at 1 1
end 4
< 0
holds 4
> a projection that is zero | check
report 1
field 2
vertex 1
vertex 2
arrow a 1 2
bound 2
claim 1 line 6 basis
words 3
word @1
word @2
word a
steps 0
rules 0
module 1 right 0 1
claim 2 line 7 module 1
module 2 left 0 1
claim 3 line 8 resolution 2 1
term 0 1 2
gen 1
term 1 1 1
gen 1
module 3 right 1 0
claim 4 line 8 taui 3 1 2 using 3
at 1 0
end 4
< 2
rejected 4 reduced
> a translate over a longer resolution | check
report 1
field 2
vertex 1
vertex 2
arrow a 1 2
arrow b 1 2
bound 2
claim 1 line 7 basis
words 4
word @1
word @2
word a
word b
steps 0
rules 0
module 1 right 1 0
claim 2 line 8 module 1
claim 3 line 9 resolution 1 2
term 0 1 1
gen 1
term 1 2 2 2
gen 1 0
gen 0 1
term 2 0
module 2 right 3 2
at a 1 0 / 0 0 / 0 1
at b 0 1 / 1 0 / 0 0
claim 4 line 9 tau 2 1 using 3
at 1 1 0 0 1 / 0 1 0 0 / 0 0 1 0
at 2 1 0 / 0 1
end 4
< 3
badtext 28";

fn rows() -> &'static str {
    ROWS
}

#[test]
fn translate_reports_have_their_verdicts(rt: HostRuntime) -> Result<(), Fail> {
    for row in rows().split("\n> ").skip(1) {
        assert!(rt; holds(&rt, row)?, "{row}");
        assert!(rt; is_written_back(&rt, row)?, "{row}");
    }
    Ok(())
}
