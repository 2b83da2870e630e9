// Several sponges over one matrix: what they do is defined in specs/.
#![tactic(auto)]

// A lane: the state of its sponge, and the row of the matrix that it visited last.
#[derive(Clone, Copy)]
pub struct Lane {
    pub state: [u64; 16],
    pub prev: usize,
}
