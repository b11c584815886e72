//! The first line of a claim: what it says.

use report_types::{PartClaim, Translation};
use seq::Seq;

/// What the first line of a claim says behind its number and its line. Modules, maps and claims are named by their numbers in the report, from 1 on.
#[derive(Debug, Drop)]
pub enum Head {
    Basis,
    Module {
        module: u32,
    },
    Map {
        map: u32,
    },
    Hom {
        a: u32,
        b: u32,
        count: u32,
    },
    Kernel {
        kernel: u32,
        f: u32,
        inclusion: u32,
    },
    Cokernel {
        cokernel: u32,
        f: u32,
        projection: u32,
    },
    Radical {
        radical: u32,
        a: u32,
        inclusion: u32,
    },
    Resolution {
        a: u32,
        n: u32,
    },
    Ext {
        n: u32,
        a: u32,
        b: u32,
        count: u32,
        resolution: u32,
    },
    Local {
        module: u32,
        hom: u32,
    },
    Decomposition {
        a: u32,
        sum: u32,
        to: u32,
        back: u32,
        parts: Seq<PartClaim>,
    },
    Translate {
        which: Translation,
        module: u32,
        a: u32,
        resolution: u32,
    },
    AlmostSplit {
        left: u32,
        middle: u32,
        right: u32,
        f: u32,
        g: u32,
        resolution: u32,
        local: u32,
    },
}

/// How many modules and how many maps a report has so far.
#[derive(Clone, Copy, Debug, Drop)]
pub struct Counts {
    pub modules: u32,
    pub maps: u32,
}
