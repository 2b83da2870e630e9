// What reading a login line answers.
#![tactic(auto)]

// T, R and C, and the lengths of salt and key.
#[derive(Clone, Copy)]
pub struct LineValues {
    pub time: usize,
    pub rows: usize,
    pub columns: usize,
    pub salt: usize,
    pub key: usize,
}
