use am_base::founding::Founding;

/// Whose records a pass knows, all of them: those done at a place, 0 to 15, or those of a caller.
#[derive(Clone, Copy, PartialEq, Eq, Debug)]
pub enum SharerKey {
    Place(u8),
    Caller(u32),
}

/// What is told once to those who share a journal: how its group begins, how many callers there are, the numbers of their
/// choosers (the seed, and how many of a hundred letters are lost and how many more repeated), and how many turns a call has.
#[derive(Drop)]
pub struct Terms {
    pub founding: Founding,
    pub callers: u32,
    pub seed: u64,
    pub loss: u32,
    pub repeat: u32,
    pub turns: u32,
}

/// Why a record was not added.
#[derive(Clone, Copy, PartialEq, Eq, Debug)]
pub enum WireRefusal {
    /// There was no memory for it.
    NoMemory,
    /// The journal has 100,000 records.
    Spent,
}
