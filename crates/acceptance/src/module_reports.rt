//! What `check` answers to reports of modules, maps, kernels, cokernels and radicals.

use crate::tables::{holds, is_written_back};
use std::test::Fail;

const ROWS: &str = "
> a kernel and a cokernel behind a refusal | check
report 1
field 2
vertex 1
vertex 2
arrow a 1 2
bound 2
claim 1 line 6 basis
words 3
word @1
word @2
word a
steps 0
rules 0
module 1 right 1 1
at a 1
claim 2 line 7 module 1
module 2 right 1 0
claim 3 line 8 module 2
map 1 1 2
at 1 1
claim 4 line 9 map 1
module 3 right 0 1
map 2 3 1
at 2 1
claim 5 line 12 kernel 3 1 2
module 4 right 0 0
map 3 2 4
claim 6 line 13 cokernel 4 1 3
refused 14 NotHom a
< 0
holds 6
> a kernel's inclusion that is not in reduced row form | check
report 1
field 2
vertex 1
vertex 2
arrow a 1 2
bound 2
claim 1 line 6 basis
words 3
word @1
word @2
word a
steps 0
rules 0
module 1 right 1 1
at a 1
claim 2 line 7 module 1
module 2 right 1 0
claim 3 line 8 module 2
map 1 1 2
at 1 1
claim 4 line 9 map 1
module 3 right 0 1
map 2 3 1
at 2 0
claim 5 line 12 kernel 3 1 2
module 4 right 0 0
map 3 2 4
claim 6 line 13 cokernel 4 1 3
refused 14 NotHom a
< 2
rejected 5 reduced
> an inclusion that is no homomorphism | check
report 1
field 2
vertex 1
vertex 2
arrow a 1 2
bound 2
claim 1 line 6 basis
words 3
word @1
word @2
word a
steps 0
rules 0
module 1 right 1 1
at a 1
claim 2 line 7 module 1
module 2 right 1 0
claim 3 line 8 module 2
map 1 1 2
at 1 1
claim 4 line 9 map 1
module 3 right 1 0
map 2 3 1
at 1 1
claim 5 line 12 kernel 3 1 2
module 4 right 0 0
map 3 2 4
claim 6 line 13 cokernel 4 1 3
refused 14 NotHom a
< 2
rejected 5 commutes
> a kernel of another map | check
report 1
field 2
vertex 1
vertex 2
arrow a 1 2
bound 2
claim 1 line 6 basis
words 3
word @1
word @2
word a
steps 0
rules 0
module 1 right 1 1
at a 1
claim 2 line 7 module 1
module 2 right 1 0
claim 3 line 8 module 2
map 1 1 2
at 1 0
claim 4 line 9 map 1
module 3 right 0 1
map 2 3 1
at 2 1
claim 5 line 12 kernel 3 1 2
module 4 right 0 0
map 3 2 4
claim 6 line 13 cokernel 4 1 3
refused 14 NotHom a
< 2
rejected 5 all
> an inclusion that the map does not kill | check
report 1
field 2
vertex 1
vertex 2
arrow a 1 2
bound 2
claim 1 line 6 basis
words 3
word @1
word @2
word a
steps 0
rules 0
module 1 right 1 1
at a 1
claim 2 line 7 module 1
module 2 right 1 0
claim 3 line 8 module 2
map 1 1 2
at 1 1
claim 4 line 9 map 1
module 3 right 1 1
at a 1
map 2 3 1
at 1 1
at 2 1
claim 5 line 12 kernel 3 1 2
module 4 right 0 0
map 3 2 4
claim 6 line 13 cokernel 4 1 3
refused 14 NotHom a
< 2
rejected 5 zero
> a kernel into the wrong module | check
report 1
field 2
vertex 1
vertex 2
arrow a 1 2
bound 2
claim 1 line 6 basis
words 3
word @1
word @2
word a
steps 0
rules 0
module 1 right 1 1
at a 1
claim 2 line 7 module 1
module 2 right 1 0
claim 3 line 8 module 2
map 1 1 2
at 1 1
claim 4 line 9 map 1
module 3 right 0 1
map 2 3 1
at 2 1
claim 5 line 12 kernel 3 1 1
module 4 right 0 0
map 3 2 4
claim 6 line 13 cokernel 4 1 3
refused 14 NotHom a
< 2
rejected 5 objects
> a cokernel that is too large | check
report 1
field 2
vertex 1
vertex 2
arrow a 1 2
bound 2
claim 1 line 6 basis
words 3
word @1
word @2
word a
steps 0
rules 0
module 1 right 1 1
at a 1
claim 2 line 7 module 1
module 2 right 1 0
claim 3 line 8 module 2
map 1 1 2
at 1 1
claim 4 line 9 map 1
module 3 right 0 1
map 2 3 1
at 2 1
claim 5 line 12 kernel 3 1 2
module 4 right 1 0
map 3 2 4
at 1 1
claim 6 line 13 cokernel 4 1 3
refused 14 NotHom a
< 2
rejected 6 zero
> a map that names a later module | check
report 1
field 2
vertex 1
vertex 2
arrow a 1 2
bound 2
claim 1 line 6 basis
words 3
word @1
word @2
word a
steps 0
rules 0
module 1 right 1 1
at a 1
claim 2 line 7 module 1
module 2 right 1 0
claim 3 line 8 module 2
map 1 1 3
at 1 1
claim 4 line 9 map 1
module 3 right 0 1
map 2 3 1
at 2 1
claim 5 line 12 kernel 3 1 2
module 4 right 0 0
map 3 2 4
claim 6 line 13 cokernel 4 1 3
refused 14 NotHom a
< 3
badtext 19
> a matrix too many | check
report 1
field 2
vertex 1
vertex 2
arrow a 1 2
bound 2
claim 1 line 6 basis
words 3
word @1
word @2
word a
steps 0
rules 0
module 1 right 1 1
at a 1
claim 2 line 7 module 1
module 2 right 1 0
at a 1
claim 3 line 8 module 2
map 1 1 2
at 1 1
claim 4 line 9 map 1
module 3 right 0 1
map 2 3 1
at 2 1
claim 5 line 12 kernel 3 1 2
module 4 right 0 0
map 3 2 4
claim 6 line 13 cokernel 4 1 3
refused 14 NotHom a
< 3
badtext 18
> a matrix too few | check
report 1
field 2
vertex 1
vertex 2
arrow a 1 2
bound 2
claim 1 line 6 basis
words 3
word @1
word @2
word a
steps 0
rules 0
module 1 right 1 1
claim 2 line 7 module 1
module 2 right 1 0
claim 3 line 8 module 2
map 1 1 2
at 1 1
claim 4 line 9 map 1
module 3 right 0 1
map 2 3 1
at 2 1
claim 5 line 12 kernel 3 1 2
module 4 right 0 0
map 3 2 4
claim 6 line 13 cokernel 4 1 3
refused 14 NotHom a
< 3
badtext 15
> a module with the wrong number | check
report 1
field 2
vertex 1
vertex 2
arrow a 1 2
bound 2
claim 1 line 6 basis
words 3
word @1
word @2
word a
steps 0
rules 0
module 1 right 1 1
at a 1
claim 2 line 7 module 1
module 3 right 1 0
claim 3 line 8 module 2
map 1 1 2
at 1 1
claim 4 line 9 map 1
module 3 right 0 1
map 2 3 1
at 2 1
claim 5 line 12 kernel 3 1 2
module 4 right 0 0
map 3 2 4
claim 6 line 13 cokernel 4 1 3
refused 14 NotHom a
< 3
badtext 17
> a module that breaks the relation | check
report 1
field 2
vertex 1
vertex 2
vertex 3
arrow a 1 2
arrow b 2 3
bound 3
relation a.b
claim 1 line 8 basis
words 5
word @1
word @2
word @3
word a
word b
steps 1
step 1 relation 1
rules 1
rule a.b -> 0 by 1
module 1 right 1 1 1
at a 1
at b 1
claim 2 line 9 module 1
end 2
< 2
rejected 2 relations
> a left module | check
report 1
field 2
vertex 1
vertex 2
vertex 3
arrow a 1 2
arrow b 2 3
bound 3
relation a.b
claim 1 line 8 basis
words 5
word @1
word @2
word @3
word a
word b
steps 1
step 1 relation 1
rules 1
rule a.b -> 0 by 1
module 1 left 1 1 0
at a 1
claim 2 line 9 module 1
end 2
< 0
holds 2
> a long path that does not act as zero | check
report 1
field 2
vertex v
arrow x v v
bound 3
claim 1 line 5 basis
words 3
word @v
word x
word x.x
steps 0
rules 0
module 1 right 4
at x 0 1 0 0 / 0 0 1 0 / 0 0 0 1 / 0 0 0 0
claim 2 line 6 module 1
end 2
< 2
rejected 2 relations
> a module of dimension 257 | check
report 1
field 2
vertex v
arrow x v v
bound 3
claim 1 line 5 basis
words 3
word @v
word x
word x.x
steps 0
rules 0
module 1 right 257
claim 2 line 6 module 1
end 2
< 3
badtext 13
> a radical | check
report 1
field 2
vertex v
arrow x v v
bound 3
claim 1 line 5 basis
words 3
word @v
word x
word x.x
steps 0
rules 0
module 1 right 2
at x 0 1 / 0 0
claim 2 line 6 module 1
module 2 right 1
at x 0
map 1 2 1
at v 0 1
claim 3 line 9 radical 2 1 1
end 3
< 0
holds 3
> another subspace than the radical | check
report 1
field 2
vertex v
arrow x v v
bound 3
claim 1 line 5 basis
words 3
word @v
word x
word x.x
steps 0
rules 0
module 1 right 2
at x 0 1 / 0 0
claim 2 line 6 module 1
module 2 right 1
at x 0
map 1 2 1
at v 1 0
claim 3 line 9 radical 2 1 1
end 3
< 2
rejected 3 commutes
> a radical that is too small | check
report 1
field 2
vertex v
arrow x v v
bound 3
claim 1 line 5 basis
words 3
word @v
word x
word x.x
steps 0
rules 0
module 1 right 2
at x 0 1 / 0 0
claim 2 line 6 module 1
module 2 right 0
map 1 2 1
claim 3 line 9 radical 2 1 1
end 3
< 2
rejected 3 all";

fn rows() -> &'static str {
    ROWS
}

#[test]
fn module_reports_have_their_verdicts(rt: HostRuntime) -> Result<(), Fail> {
    for row in rows().split("\n> ").skip(1) {
        assert!(rt; holds(&rt, row)?, "{row}");
        assert!(rt; is_written_back(&rt, row)?, "{row}");
    }
    Ok(())
}
