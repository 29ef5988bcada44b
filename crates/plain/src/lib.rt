// The plain engine's values.
#![tactic(auto)]

// An entry of the table of free runs: the first page and how many pages; one of no pages is an empty place.
#[derive(Clone, Copy)]
pub struct Extent {
    pub first: u32,
    pub len: u32,
}

// A page: kind 0 is free, 1 of a class, 2 the first of a taken run of so many pages, 3 another of a taken run.
#[derive(Clone, Copy)]
pub struct PageEntry {
    pub kind: u8,
    pub class: u8,
    pub run: u32,
}

// The counts of a class: chunks in callers' hands, chunks that serve callers, asks and failures.
#[derive(Clone, Copy)]
pub struct Counts {
    pub used: u32,
    pub total: u32,
    pub reqs: u32,
    pub fails: u32,
}

// What the engine keeps by value: all tables but that of the free runs and that of the chunks, which are lent.
#[derive(Clone, Copy)]
pub struct Kept {
    pub pages: [PageEntry; 12],
    // the class pages with a free chunk in list order, of all classes; a number past 11 is an empty place
    pub ready: [u8; 12],
    pub counts: [Counts; 9],
    // the pages that are free
    pub free: u32,
}

// The answer of a call: the refusal's number, 0 where it is granted, and the offset or the bytes released.
#[derive(Clone, Copy)]
pub struct Answer {
    pub after: Kept,
    pub number: u8,
    pub value: u32,
}

// An answer with what the table of free runs is still to suffer: so many pages from the first on leave it or come back; 0 are none.
#[derive(Clone, Copy)]
pub struct Done {
    pub after: Kept,
    pub number: u8,
    pub value: u32,
    pub first: u32,
    pub len: u32,
}
