//! The first bad line of a script.

use crate::lines::wrong_row;
use std::test::Fail;

/// Seven lines of a header.
const RELATIONS_HEAD: &str =
    "field 3\nvertex 1\nvertex 2\narrow a 1 2\narrow b 1 2\narrow x 1 1\nbound 3\n";

/// The same, and the basis.
const STATEMENTS_HEAD: &str =
    "field 3\nvertex 1\nvertex 2\narrow a 1 2\narrow b 1 2\narrow x 1 1\nbound 3\nbasis\n";

/// Scripts, whole.
const HEADERS: &str = "
> 1 input that ends too early
\\
> 2
field 2
> 4



> 4
field 2
vertex v
bound 2
> 0 the smallest script, its last line without a line feed
field 2
vertex v
bound 2
basis\\
> 0
field 2
vertex v
bound 2
basis
> 0 carriage returns, tabs, comments, empty lines, leading zeros
field 2\r
vertex v\r
bound 2\r
basis\r
> 4
field 2
vertex v
bound 2
basis\r\\
> 0
field 2
vertex v
bound 2
basis #\r\\
> 0
field\t2
vertex \tv
bound\t 2\t
basis
> 1
field 2\r\r
vertex v
bound 2
basis
> 0
field 02 # 2

#
vertex v#w
bound 0000000002
basis\\
> 0
field 2 # \u{e9}
vertex v
bound 2
basis
> 2
field 2
vertex \u{e9}
bound 2
basis
> 3
field 2
vertex v
bound 00000000002
basis
> 0 fields
field 27
vertex v
bound 2
basis
> 0
field 4
vertex v
bound 2
basis
> 1
field 6
vertex v
bound 2
basis
> 1
field 29
vertex v
bound 2
basis
> 1
field
vertex v
bound 2
basis
> 1
field 2 3
vertex v
bound 2
basis
> 1 order
vertex v
field 2
bound 2
basis
> 2
field 2
field 2
vertex v
bound 2
basis
> 2
field 2
bound 2
basis
> 3
field 2
vertex v
basis
> 4
field 2
vertex v
bound 2
vertex w
basis
> 4
field 2
vertex v
arrow a v v
vertex w
bound 2
> 5
field 2
vertex v
bound 2
basis
basis
> 3 names
field 2
vertex v
vertex v
bound 2
basis
> 0
field 2
vertex 1234567890123456
bound 2
basis
> 2
field 2
vertex 12345678901234567
bound 2
basis
> 4
field 2
vertex v
arrow a v v
arrow a v v
bound 2\\
> 3
field 2
vertex v
arrow a v w
bound 2
basis
> 3
field 2
vertex v
arrow 1 v v
bound 2
basis
> 0 letters of both cases, digits and underscores
field 2
vertex a
vertex B
vertex b
vertex _
vertex Vertex_12
bound 2
basis
> 2 other characters
field 2
vertex
bound 2
basis
> 2
field 2
vertex abcdefghijklmnopq
bound 2
basis
> 2
field 2
vertex a-b
bound 2
basis
> 2
field 2
vertex a b
bound 2
basis
> 2
field 2
vertex @
bound 2
basis
> 2
field 2
vertex [
bound 2
basis
> 2
field 2
vertex `
bound 2
basis
> 2
field 2
vertex {
bound 2
basis
> 2
field 2
vertex /
bound 2
basis
> 2
field 2
vertex :
bound 2
basis
> 0 names that begin alike
field 2
vertex x
vertex y
vertex xy
bound 2
basis
> 4
field 2
vertex x
vertex y
vertex x
bound 2
basis
> 0
field 2
vertex abcdefghijklmnop
vertex abcdefghijklmno
bound 2
basis
> 3
field 2
vertex abcdefghijklmnop
vertex abcdefghijklmnop
bound 2
basis
> 5
field 2
vertex a
vertex B
vertex b
vertex B
bound 2
basis
> 6 an arrow behind itself
field 2
vertex 1
vertex 2
arrow a 1 2
bound 3
relation a.a
basis
> 3 bounds
field 2
vertex v
bound 1
basis
> 0
field 2
vertex v
bound 32
basis
> 3
field 2
vertex v
bound 33
basis";

/// Behind the lines of a header.
const RELATIONS: &str = "
> 0
basis
> 0
relation x.x
basis
> 0
relation - x.x
basis
> 0
relation x.a + 2*x.b - 1*x.x.a
basis
> 0
relation x.x.x.x.x
basis
> 8 a path of length one, a trivial path
relation x
basis
> 8
relation @1
basis
> 8 paths that do not compose, or of other ends, or the same
relation a.b
basis
> 8
relation x.x + x.a
basis
> 8
relation x.a + 2*x.a
basis
> 8 coefficients
relation 0*x.x
basis
> 8
relation 3*x.x
basis
> 0
relation 2*x.x
basis
> 8
relation 2 * x.x
basis
> 8
relation *x.x
basis
> 8 signs
relation -x.x
basis
> 8
relation + x.x
basis
> 8
relation x.x +
basis
> 8
relation x.x x.x.x
basis
> 8
relation
basis
> 8
relation -
basis
> 8
relation x..x
basis
> 8
relation x.y
basis
> 9 before the bound, behind the basis
basis
relation x.x";

/// Behind the basis.
const STATEMENTS: &str = "
> 0
\\
> 0
rep M 1 2
at a 1 2
at x 0
end
> 0
rep M 1 2
end\\
> 0
rep end 1
end
> 0
rep M 1 2
at a
at b 1 / 2 1
end
> 0
rep M 65535
end
> 9
rep M 65536
end
> 9
rep M
end
> 9
rep M.map 1
end
> 9
rep 1M 1
end
> 10
rep M 1
> 10
rep M 1
kernel N F
end
> 10
rep M 1
at 1 1
end
> 10
rep M 1
at a 3
end
> 10
rep M 1
at a 1 /
end
> 10
rep M 1
at a / 1
end
> 10
rep M 1
at a 1 // 1
end
> 10
rep M 1
at
end
> 0
map F M N.1
at 1 1
at v 0
end
> 9
map F M
end
> 9
end
> 9
at a 1
> 0
std S simple 1
std P projective v
std I injective 2
> 9
std S other 1
> 0
sum N A.1 B.256
> 9
sum N A.0 B
> 9
sum N A B.257
> 9
sum N A.01 B
> 9
sum N A.map.map B
> 0
kernel K F
cokernel C F.map
> 0
radical R A
dual D A.inv
> 0
transpose T A
tau T A
taui T A
> 9
kernel K
> 9
kernel K F F
> 0
hom A B
resolve A 016
ext 15 A B
> 9
resolve A 17
> 9
ext 16 A B
> 0
decompose A as X
ars A as N E
> 9
decompose A to X
> 9
ars A as N
> 9
iso A B
> 12
hom A B

# nothing
hom A
> 0 blanks, comments and bytes that stand in no line
\t rep\tM  1 2 \r
end
> 9
rep M# 1 2
end
> 10
 \t# a \r b \u{e9}
basi
> 11
\r

basi
> 0
hom A B#x
> 9
end\r\\
> 9
e\rnd
> 9
hom A B\r\r
> 9
rep \u{e9} 1
> 9
hom A\u{7f} B
> 9
\u{b}
> 0 numbers
resolve A 0000000007
> 9
resolve A 00000000007
> 9
resolve A -1
> 9
resolve A 1.
> 9
resolve A 9999999999";

fn headers() -> &'static str {
    HEADERS
}

fn relations() -> &'static str {
    RELATIONS
}

fn statements() -> &'static str {
    STATEMENTS
}

#[test]
fn bad_lines_of_headers(rt: HostRuntime) -> Result<(), Fail> {
    let wrong = wrong_row(&rt, "run", "", headers())?;
    assert_eq!(rt; wrong, None);
    Ok(())
}

#[test]
fn bad_relations(rt: HostRuntime) -> Result<(), Fail> {
    let wrong = wrong_row(&rt, "run", RELATIONS_HEAD, relations())?;
    assert_eq!(rt; wrong, None);
    Ok(())
}

#[test]
fn bad_statements(rt: HostRuntime) -> Result<(), Fail> {
    let wrong = wrong_row(&rt, "run", STATEMENTS_HEAD, statements())?;
    assert_eq!(rt; wrong, None);
    Ok(())
}
