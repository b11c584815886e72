//! The types of this crate may go from thread to thread, and be lent to several at once: this file is compiled only where that is so.

use crate::{Map, Module, ProjMap, Side, TermRows};

fn crosses<T: Send + Sync>(_value: &T) {}

pub(crate) fn all_cross(side: &Side, m: &Module, map: &Map, term: &TermRows, projective: &ProjMap) {
    crosses(side);
    crosses(m);
    crosses(map);
    crosses(term);
    crosses(projective);
}
