// The room of the items, made once for all of them: a program's memory is fixed, and no item takes the heap.

// The greatest length of a record and of an output, and the greatest counts of a run and of the cells.
pub(crate) const LARGE: usize = 65536;

pub(crate) const RUN: usize = 4096;

pub(crate) const CELLS: usize = 16384;

// Where the runs of a content lie.
#[derive(Drop)]
pub(crate) struct Runs {
    pub codes: [u16; RUN],
    pub settings: [u16; RUN],
    pub saturation: [u16; RUN],
    pub cells: [u32; CELLS],
    pub pasts: [u16; RUN],
    pub causes: [u8; RUN],
}

// The first run of bytes is a record's, or those that a run's numbers are taken from.
#[derive(Drop)]
pub(crate) struct Space {
    pub bytes: [u8; LARGE],
    pub output: [u8; LARGE],
    pub runs: Runs,
}
