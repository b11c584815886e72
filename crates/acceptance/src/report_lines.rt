//! The first bad line of a report.

use crate::lines::wrong_row;
use std::test::Fail;

/// One loop x at a vertex v: paths of length 4 are zero, and so is x² + x³.
const LOOP_HEAD: &str = "report 1\nfield 3\nvertex v\narrow x v v\nbound 4\nrelation x.x + x.x.x\n";

/// Behind the line that says that it is a report.
const HEADERS: &str = "
> 2
\\
> 4
field 2
vertex 1
> 2
field 6
vertex 1
bound 2
> 4
field 2
vertex 1
vertex 1
bound 2
> 4
field 2
vertex 1
arrow 1 1 1
bound 2
> 4
field 2
vertex 1
arrow a 1 2
bound 2
> 4
field 2
vertex 1
bound 02
> 4
field 2
vertex 1
bound 33
> 5
field 2
vertex 1
bound 2
bound 2
> 6
field 2
vertex 1
arrow a 1 1
bound 2
relation a
> 6
field 2
vertex 1
arrow a 1 1
bound 2
relation a.a + a.a
> 6
field 3
vertex 1
arrow a 1 1
bound 2
relation 1*a.a
> 6
field 3
vertex 1
arrow a 1 1
bound 2
relation a.a\\";

/// Reports, whole.
const REPORTS: &str = "
> 1
\\
> 1
report 2
> 5
report 1
field 2
vertex 1
bound 2
> 4
report 1
field 2
vertex 1
claim 1 line 4 basis
> 5
report 1
field 2
vertex 1
bound 2
claim 1 line 04 basis
> 5
report 1
field 2
vertex 1
bound 2
claim 1 line 4 basis 
> 5
report 1
field 2
vertex 1
bound 2
claim 2 line 4 basis
> 5
report 1
field 2
vertex 1
bound 2
claim 1 line 0 basis
> 6
report 1
field 2
vertex 1
bound 2
claim 1 line 4 basis
words 01
word @1
steps 0
rules 0
end 1
> 10
report 1
field 2
vertex 1
bound 2
claim 1 line 4 basis
words 1
word @1
steps 0
rules 0
> 5
report 1
field 2
vertex 1
bound 2
refused 5 NotBuilt
> 6
report 1
field 2
vertex 1
bound 2
refused 4 PathLimit 8191
end 1
> 5
report 1
field 2
vertex 1
bound 2
refused 4 PathLimit 18446744073709551616
> 0 texts that are reports
report 1
field 3
vertex v
arrow x v v
bound 4
claim 1 line 9 basis
words 0
steps 0
rules 0
refused 12 NotBuilt
> 0
report 1
field 2
vertex 1
bound 12
refused 4194304 PathLimit 18446744073709551615
> 0
report 1
field 2
vertex 1
vertex 2
arrow a 1 2
arrow b 1 2
arrow c 2 1
bound 3
relation a.c
claim 1 line 9 basis
words 1
word c.b
steps 1
step 1 relation 1
rules 1
rule a -> b + @2 + @1 by 1
end 1";

/// Behind the header of the loop.
const RECORDS: &str = "
> 8
claim 1 line 6 basis
words 4097
> 10
claim 1 line 6 basis
words 4096
word @v
word v
> 9
claim 1 line 6 basis
words 1
word x 
> 8
claim 1 line 6 basis
words 1\r
> 10
claim 1 line 6 basis
words 1
word x
steps 0\r
> 10
claim 1 line 6 basis
words 0
steps 1
step 01 relation 1
> 9
claim 1 line 6 basis
words 0
steps 00
> 10
claim 1 line 6 basis
words 0
steps 1
step 1 relation 2
> 0
claim 1 line 6 basis
words 0
steps 1
step 1 relation 1
rules 1
rule @v -> 0 by 1
end 1
> 0
claim 1 line 6 basis
words 0
steps 1
step 1 relation 1
rules 1
rule x.x.x.x.x.x.x.x.x.x.x.x.x.x.x.x.x.x.x.x.x.x.x.x.x.x.x.x.x.x.x.x.x.x.x.x.x.x.x.x.x.x.x.x.x.x.x.x.x.x.x.x.x.x.x.x.x.x.x.x.x.x.x.x -> 0 by 1
end 1
> 12
claim 1 line 6 basis
words 0
steps 1
step 1 relation 1
rules 1
rule x.x.x.x.x.x.x.x.x.x.x.x.x.x.x.x.x.x.x.x.x.x.x.x.x.x.x.x.x.x.x.x.x.x.x.x.x.x.x.x.x.x.x.x.x.x.x.x.x.x.x.x.x.x.x.x.x.x.x.x.x.x.x.x.x -> 0 by 1
end 1
> 12
claim 1 line 6 basis
words 0
steps 1
step 1 relation 1
rules 1
rule x.x -> x.x.x.x by 1
end 1
> 12
claim 1 line 6 basis
words 0
steps 1
step 1 relation 1
rules 1
rule x.x -> x + x by 1
end 1
> 12
claim 1 line 6 basis
words 0
steps 1
step 1 relation 1
rules 1
rule x.x -> 2*x.x.x by 2
end 1
> 10
claim 1 line 6 basis
words 2
word x
word x
> 9
claim 1 line 6 basis
words 1
word x.x.x.x
> 13
claim 1 line 6 basis
words 1
word @v
steps 99999999999999999999
step 1 relation 1
step 2 left x 1
rules 0
> 10
claim 1 line 6 basis
words 0
steps 1
step 1 left x 1
> 10
claim 1 line 6 basis
words 0
steps 1
step 2 relation 1
> 11
claim 1 line 6 basis
words 0
steps 2
step 1 relation 1
step 2 add 1 3 1
> 11
claim 1 line 6 basis
words 0
steps 0
rules 1
rule x -> 0 by 1
> 12
claim 1 line 6 basis
words 0
steps 1
step 1 relation 1
rules 1
rule x.x -> x + x.x.x by 1
end 1
> 0
claim 1 line 6 basis
words 0
steps 1
step 1 relation 1
rules 1
rule @v -> x.x + 2*x + @v by 1
end 1
> 12
claim 1 line 6 basis
words 0
steps 1
step 1 relation 1
rules 1
rule x -> 1*@v by 1
end 1
> 11
claim 1 line 6 basis
words 0
steps 0
rules 0
end 2
> 11
claim 1 line 6 basis
words 0
steps 0
rules 0
end 1\\
> 12
claim 1 line 6 basis
words 0
steps 0
rules 0
end 1

> 11
claim 1 line 6 basis
words 0
steps 0
rules 0
refused 7 PathLimit 5000
> 0
claim 1 line 6 basis
words 0
steps 0
rules 0
refused 5 NotBuilt
> 11
claim 1 line 6 basis
words 0
steps 0
rules 0
claim 2 line 7 module 1
> 11
claim 1 line 6 basis
words 0
steps 0
rules 0
module 2 right 1
> 11
claim 1 line 6 basis
words 0
steps 0
rules 0
map 1 1 1
> 12
claim 1 line 6 basis
words 0
steps 0
rules 0
module 1 right 1
claim 2 line 7 module 1
> 12
claim 1 line 6 basis
words 0
steps 0
rules 0
module 1 right 1
at x 3
> 13
claim 1 line 6 basis
words 0
steps 0
rules 0
module 1 right 1
at x 0
claim 2 line 7 module 2
> 14
claim 1 line 6 basis
words 0
steps 0
rules 0
module 1 right 1
at x 0
claim 2 line 7 module 1
row 0
> 13
claim 1 line 6 basis
words 0
steps 0
rules 0
module 1 right 1
at x 0
claim 2 line 7 kernel 1 1 1
> 13
claim 1 line 6 basis
words 0
steps 0
rules 0
module 1 right 1
at x 0
claim 2 line 7 local 1 using 1
> 0
claim 1 line 6 basis
words 0
steps 0
rules 0
module 1 right 0
map 1 1 1
claim 2 line 7 kernel 1 1 1
claim 3 line 7 cokernel 1 1 1
claim 4 line 7 radical 1 1 1
claim 5 line 7 map 1
refused 8 NotBuilt
> 8 numerals
claim 1 line 6 basis
words 00
> 8
claim 1 line 6 basis
words 07
> 8
claim 1 line 6 basis
words +1
> 8
claim 1 line 6 basis
words 1a
> 8
claim 1 line 6 basis
words 
> 8
claim 1 line 6 basis
words 18446744073709551616
> 8
claim 1 line 6 basis

> 8
claim 1 line 6 basis
word 0
> 7
claim 1 line 6 basis\\";

fn headers() -> &'static str {
    HEADERS
}

fn reports() -> &'static str {
    REPORTS
}

fn records() -> &'static str {
    RECORDS
}

#[test]
fn bad_lines_of_headers(rt: HostRuntime) -> Result<(), Fail> {
    let wrong = wrong_row(&rt, "check", "report 1\n", headers())?;
    assert_eq!(rt; wrong, None);
    Ok(())
}

#[test]
fn bad_lines_of_reports(rt: HostRuntime) -> Result<(), Fail> {
    let wrong = wrong_row(&rt, "check", "", reports())?;
    assert_eq!(rt; wrong, None);
    Ok(())
}

#[test]
fn bad_lines_of_records(rt: HostRuntime) -> Result<(), Fail> {
    let wrong = wrong_row(&rt, "check", LOOP_HEAD, records())?;
    assert_eq!(rt; wrong, None);
    Ok(())
}
