//! What `check` answers to reports.

use crate::tables::{holds, is_written_back};
use std::test::Fail;

/// Reports and their verdicts.
const REPORTS: &str = "
> workers behind the mode | check --workers 3
report 1
field 2
vertex 1
bound 2
claim 1 line 4 basis
words 1
word @1
steps 0
rules 0
end 1
< 0
holds 1
> workers before the mode | --workers 16 check
report 1
field 2
vertex 1
bound 2
claim 1 line 4 basis
words 1
word @1
steps 0
rules 0
end 1
< 0
holds 1
> the smallest report | check
report 1
field 2
vertex 1
bound 2
claim 1 line 4 basis
words 1
word @1
steps 0
rules 0
end 1
< 0
holds 1
> no claim | check
report 1
field 2
vertex v
arrow x v v
arrow y v v
bound 13
refused 5 PathLimit 8191
< 0
holds 0
> no claim, and a number of paths that is not right | check
report 1
field 3
vertex v
arrow x v v
bound 4
relation x.x + x.x.x
refused 5 PathLimit 4097
< 0
holds 0
> a report that ends too early | check
report 1
field 2
vertex 1
bound 2
claim 1 line 4 basis
words 1
word @1
steps 0
rules 0
< 3
badtext 10
> a number that begins with zero | check
report 1
field 2
vertex 1
bound 2
claim 1 line 4 basis
words 01
word @1
steps 0
rules 0
end 1
< 3
badtext 6
> an empty report | check
\\
< 3
badtext 1
> a derivation by steps | check
report 1
field 3
vertex v
arrow x v v
bound 4
relation x.x + x.x.x
claim 1 line 6 basis
words 2
word @v
word x
steps 3
step 1 relation 1
step 2 right 1 x
step 3 add 1 2 2
rules 1
rule x.x -> 0 by 3
end 1
< 0
holds 1
> another derivation | check
report 1
field 3
vertex v
arrow x v v
bound 4
relation x.x + x.x.x
claim 1 line 6 basis
words 2
word @v
word x
steps 4
step 1 relation 1
step 2 left x 1
step 3 add 2 2 1
step 4 add 3 1 3
rules 1
rule x.x -> 0 by 4
end 1
< 0
holds 1
> a rule by another step | check
report 1
field 3
vertex v
arrow x v v
bound 4
relation x.x + x.x.x
claim 1 line 6 basis
words 2
word @v
word x
steps 3
step 1 relation 1
step 2 right 1 x
step 3 add 1 2 2
rules 1
rule x.x -> 0 by 2
end 1
< 2
rejected 1 rule
> a rule with another tail | check
report 1
field 3
vertex v
arrow x v v
bound 4
relation x.x + x.x.x
claim 1 line 6 basis
words 2
word @v
word x
steps 3
step 1 relation 1
step 2 right 1 x
step 3 add 1 2 2
rules 1
rule x.x -> x by 3
end 1
< 2
rejected 1 rule
> a rule that is no rule, with too few words | check
report 1
field 3
vertex v
arrow x v v
bound 4
relation x.x + x.x.x
claim 1 line 6 basis
words 1
word @v
steps 3
step 1 relation 1
step 2 right 1 x
step 3 add 1 2 2
rules 1
rule x.x -> x by 3
end 1
< 2
rejected 1 rule
> an arrow that is zero | check
report 1
field 3
vertex v
arrow x v v
bound 4
relation x.x + x.x.x
claim 1 line 6 basis
words 1
word @v
steps 3
step 1 relation 1
step 2 right 1 x
step 3 add 1 2 2
rules 1
rule x -> 0 by 3
end 1
< 2
rejected 1 rule
> a vertex that is zero | check
report 1
field 3
vertex v
arrow x v v
bound 4
relation x.x + x.x.x
claim 1 line 6 basis
words 0
steps 3
step 1 relation 1
step 2 right 1 x
step 3 add 1 2 2
rules 1
rule @v -> 0 by 3
end 1
< 2
rejected 1 rule
> too few words | check
report 1
field 3
vertex v
arrow x v v
bound 4
relation x.x + x.x.x
claim 1 line 6 basis
words 1
word @v
steps 3
step 1 relation 1
step 2 right 1 x
step 3 add 1 2 2
rules 1
rule x.x -> 0 by 3
end 1
< 2
rejected 1 words
> no words | check
report 1
field 3
vertex v
arrow x v v
bound 4
relation x.x + x.x.x
claim 1 line 6 basis
words 0
steps 0
rules 0
end 1
< 2
rejected 1 words
> too many words | check
report 1
field 3
vertex v
arrow x v v
bound 4
relation x.x + x.x.x
claim 1 line 6 basis
words 4
word @v
word x
word x.x
word x.x.x
steps 0
rules 0
end 1
< 2
rejected 1 action
> rules that leave a word too many | check
report 1
field 3
vertex v
arrow x v v
bound 4
relation x.x + x.x.x
claim 1 line 6 basis
words 3
word @v
word x
word x.x
steps 1
step 1 relation 1
rules 1
rule x.x.x -> 2*x.x by 1
end 1
< 2
rejected 1 action
> few words of many paths | check
report 1
field 3
vertex v
arrow x v v
arrow y v v
bound 32
claim 1 line 6 basis
words 3
word @v
word x
word x.x
steps 0
rules 0
end 1
< 2
rejected 1 words
> a module and its radical | check
report 1
field 2
vertex v
arrow x v v
bound 2
claim 1 line 5 basis
words 2
word @v
word x
steps 0
rules 0
module 1 right 2
at x 0 1 / 0 0
claim 2 line 6 module 1
module 2 right 1
at x 0
map 1 2 1
at v 0 1
claim 3 line 7 radical 2 1 1
end 3
< 0
holds 3
> a square that is not zero | check
report 1
field 2
vertex v
arrow x v v
bound 2
claim 1 line 5 basis
words 2
word @v
word x
steps 0
rules 0
module 1 left 1
at x 1
claim 2 line 6 module 1
end 2
< 2
rejected 2 relations
> a map that is no homomorphism | check
report 1
field 2
vertex v
arrow x v v
bound 2
claim 1 line 5 basis
words 2
word @v
word x
steps 0
rules 0
module 1 right 2
at x 0 1 / 0 0
claim 2 line 6 module 1
module 2 right 1
at x 0
map 1 2 1
at v 1 0
claim 3 line 7 map 1
end 3
< 2
rejected 3 commutes
> a kernel and a cokernel | check
report 1
field 2
vertex v
arrow x v v
bound 2
claim 1 line 5 basis
words 2
word @v
word x
steps 0
rules 0
module 1 right 2
at x 0 1 / 0 0
map 1 1 1
at v 0 1 / 0 0
claim 2 line 6 map 1
module 2 right 1
at x 0
map 2 2 1
at v 0 1
claim 3 line 7 kernel 2 1 2
module 3 right 1
at x 0
map 3 1 3
at v 1 / 0
claim 4 line 8 cokernel 3 1 3
end 4
< 0
holds 4
> a part of a kernel | check
report 1
field 2
vertex v
arrow x v v
bound 2
claim 1 line 5 basis
words 2
word @v
word x
steps 0
rules 0
module 1 right 2
at x 0 0 / 0 0
module 2 right 1
at x 0
map 1 1 1
at v 0 0 / 0 0
map 2 2 1
at v 0 1
claim 2 line 6 kernel 2 1 2
end 2
< 2
rejected 2 all";

fn reports() -> &'static str {
    REPORTS
}

#[test]
fn reports_have_their_verdicts(rt: HostRuntime) -> Result<(), Fail> {
    for row in reports().split("\n> ").skip(1) {
        assert!(rt; holds(&rt, row)?, "{row}");
        assert!(rt; is_written_back(&rt, row)?, "{row}");
    }
    Ok(())
}
