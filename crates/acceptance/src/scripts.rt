//! What `run` answers to scripts.

use crate::tables::{holds, is_accepted};
use std::test::Fail;

/// Scripts and their reports.
const SCRIPTS: &str = "
> the smallest algebra | run
field 2
vertex 1
bound 2
basis
< 0
report 1
field 2
vertex 1
bound 2
claim 1 line 4 basis
words 1
word @1
steps 0
rules 0
end 1
> five elements | run
field 5
vertex 1
bound 2
basis
< 0
report 1
field 5
vertex 1
bound 2
claim 1 line 4 basis
words 1
word @1
steps 0
rules 0
end 1
> comments, blanks and carriage returns | run
# smallest\r
 field\t5 # prime\r
\r
vertex 1\r
bound 02\r
basis\\
< 0
report 1
field 5
vertex 1
bound 2
claim 1 line 6 basis
words 1
word @1
steps 0
rules 0
end 1
> the last line without a line feed | run
# smallest
 field\t5 # prime

vertex 1\r
bound 02
basis\\
< 0
report 1
field 5
vertex 1
bound 2
claim 1 line 6 basis
words 1
word @1
steps 0
rules 0
end 1
> a loop without a relation | run
field 2
vertex v
arrow x v v
bound 3
basis
< 0
report 1
field 2
vertex v
arrow x v v
bound 3
claim 1 line 5 basis
words 3
word @v
word x
word x.x
steps 0
rules 0
end 1
> a square and a cube | run
field 3
vertex v
arrow x v v
bound 4
relation x.x + x.x.x
basis
< 0
report 1
field 3
vertex v
arrow x v v
bound 4
relation x.x + x.x.x
claim 1 line 6 basis
words 2
word @v
word x
steps ...
rules 1
rule x.x -> 0 by ...
end 1
> one arrow | run
field 2
vertex 1
vertex 2
arrow a 1 2
bound 2
basis
< 0
report 1
field 2
vertex 1
vertex 2
arrow a 1 2
bound 2
claim 1 line 6 basis
words 3
word @1
word @2
word a
steps 0
rules 0
end 1
> the Kronecker quiver | run
field 2
vertex 1
vertex 2
arrow a 1 2
arrow b 1 2
bound 2
basis
< 0
report 1
field 2
vertex 1
vertex 2
arrow a 1 2
arrow b 1 2
bound 2
claim 1 line 7 basis
words 4
word @1
word @2
word a
word b
steps 0
rules 0
end 1
> a zero relation | run
field 2
vertex 1
vertex 2
vertex 3
arrow a 1 2
arrow b 2 3
bound 3
relation a.b
basis
< 0
report 1
field 2
vertex 1
vertex 2
vertex 3
arrow a 1 2
arrow b 2 3
bound 3
relation a.b
claim 1 line 9 basis
words 5
word @1
word @2
word @3
word a
word b
steps ...
rules 1
rule a.b -> 0 by ...
end 1
> the preprojective algebra of A3 | run
field 5
vertex 1
vertex 2
vertex 3
arrow a 1 2
arrow b 2 1
arrow c 2 3
arrow d 3 2
bound 3
relation a.b
relation b.a - c.d
relation d.c
basis
< 0
report 1
field 5
vertex 1
vertex 2
vertex 3
arrow a 1 2
arrow b 2 1
arrow c 2 3
arrow d 3 2
bound 3
relation a.b
relation b.a + 4*c.d
relation d.c
claim 1 line 13 basis
words 10
word @1
word @2
word @3
word a
word b
word c
word d
word a.c
word b.a
word d.b
steps ...
rules 3
rule a.b -> 0 by ...
rule c.d -> b.a by ...
rule d.c -> 0 by ...
end 1
> two squares that are equal | run
field 2
vertex v
arrow x v v
arrow y v v
bound 4
relation y.y + x.x
basis
< 0
report 1
field 2
vertex v
arrow x v v
arrow y v v
bound 4
relation y.y + x.x
claim 1 line 7 basis
words 10
word @v
word x
word y
word x.x
word x.y
word y.x
word x.x.x
word x.x.y
word x.y.x
word y.x.y
steps ...
rules 2
rule y.y -> x.x by ...
rule y.x.x -> x.x.y by ...
end 1
> a relation of paths that are too long | run
field 2
vertex v
arrow x v v
arrow y v v
bound 2
relation y.y + x.x
basis
< 0
report 1
field 2
vertex v
arrow x v v
arrow y v v
bound 2
relation y.y + x.x
claim 1 line 7 basis
words 3
word @v
word x
word y
steps 0
rules 0
end 1
> as many paths as may be, nearly | run
field 2
vertex v
arrow x v v
arrow y v v
bound 12
basis
< 0
report 1
field 2
vertex v
arrow x v v
arrow y v v
bound 12
claim 1 line 6 basis
words 4095
word @v
word x
word y
word x.x
...
word y.y.y.y.y.y.y.y.y.y.x
word y.y.y.y.y.y.y.y.y.y.y
steps 0
rules 0
end 1
> paths of vertices, of arrows and of two arrows, in their order | run
field 2
vertex 1
vertex 2
arrow x 1 1
arrow y 1 1
bound 3
basis
< 0
report 1
field 2
vertex 1
vertex 2
arrow x 1 1
arrow y 1 1
bound 3
claim 1 line 7 basis
words 8
word @1
word @2
word x
word y
word x.x
word x.y
word y.x
word y.y
steps 0
rules 0
end 1
> one arrow, and the largest bound | run
field 2
vertex 1
vertex 2
arrow a 1 2
bound 32
basis
< 0
report 1
field 2
vertex 1
vertex 2
arrow a 1 2
bound 32
claim 1 line 6 basis
words 3
word @1
word @2
word a
steps 0
rules 0
end 1
> long names | run
field 2
vertex abcdefghijklmnop
vertex abcdefghijklmno
arrow Arrow_1234567890 abcdefghijklmno abcdefghijklmnop
bound 2
basis
< 0
report 1
field 2
vertex abcdefghijklmnop
vertex abcdefghijklmno
arrow Arrow_1234567890 abcdefghijklmno abcdefghijklmnop
bound 2
claim 1 line 6 basis
words 3
word @abcdefghijklmnop
word @abcdefghijklmno
word Arrow_1234567890
steps 0
rules 0
end 1
> too many paths | run
field 2
vertex v
arrow x v v
arrow y v v
bound 13
basis
< 1
report 1
field 2
vertex v
arrow x v v
arrow y v v
bound 13
refused 5 PathLimit 8191
> too many paths along a cycle | run
field 5
vertex 1
vertex v_2
arrow a 1 v_2
arrow b 1 v_2
arrow c v_2 1
bound 32
relation a.c - b.c
relation c.a.c
basis
< 1
report 1
field 5
vertex 1
vertex v_2
arrow a 1 v_2
arrow b 1 v_2
arrow c v_2 1
bound 32
relation a.c + 4*b.c
relation c.a.c
refused 7 PathLimit 327675
> a statement that is not built | run
field 2
vertex 1
bound 2
basis
dual D S
< 1
report 1
field 2
vertex 1
bound 2
claim 1 line 4 basis
words 1
word @1
steps 0
rules 0
refused 5 NotBuilt";

fn scripts() -> &'static str {
    SCRIPTS
}

#[test]
fn scripts_have_their_reports(rt: HostRuntime) -> Result<(), Fail> {
    for row in scripts().split("\n> ").skip(1) {
        assert!(rt; holds(&rt, row)?, "{row}");
    }
    Ok(())
}

#[test]
fn reports_are_accepted(rt: HostRuntime) -> Result<(), Fail> {
    for row in scripts().split("\n> ").skip(1) {
        assert!(rt; is_accepted(&rt, row)?, "{row}");
    }
    Ok(())
}
