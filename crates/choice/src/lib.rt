// What the choice of costs is given and what it answers; the choice itself is defined in specs/. There is no function here.
#![tactic(auto)]

// What a planner allows: W words of a matrix, B rounds spent, with ρ rounds in a reduced call, and N column counts to try.
#[derive(Clone, Copy)]
pub struct Limits {
    pub words: usize,
    pub budget: u64,
    pub rounds: usize,
    pub tries: usize,
}

// R and C.
#[derive(Clone, Copy, PartialEq, Eq, Debug)]
pub struct Shape {
    pub rows: usize,
    pub columns: usize,
}

// T, R and C, and how many cells more any other triple that fits may have.
#[derive(Clone, Copy, PartialEq, Eq, Debug)]
pub struct ChosenCosts {
    pub time: usize,
    pub shape: Shape,
    pub shortfall: usize,
}
