//! What no script reaches: values cross threads.

use super::*;
use std::test::Fail;

fn crosses<T: Send + Sync>(_value: &T) {}

#[test]
fn values_cross_threads(rt: HostRuntime) -> Result<(), Fail> {
    let alloc = rt.alloc();
    crosses(&Name::of(b"a").ok_or("no name")?);
    crosses(&Names::new(alloc));
    crosses(&Path {
        start: 0,
        end: 0,
        arrows: Seq::new(alloc),
    });
    crosses(&Quiver {
        vertices: Seq::new(alloc),
        arrows: Seq::new(alloc),
    });
    Ok(())
}
