// The profile: its fixed numbers, the two tables of document 01 and the starting state.
#![tactic(auto)]

ghost use Rattle.std.specs.Prelude.{◌≡◌};
ghost use Rattle.profile.specs.Profile.{full_rounds, usual_rounds, usual_rotation, block_words, cell_words, quads, start};

// Four positions of the state.
#[derive(Clone, Copy)]
pub struct Quad(pub usize, pub usize, pub usize, pub usize);

// The columns of the state as a square of four by four, then its diagonals.
const QUADS: [Quad; 8] = [
    Quad(0, 4, 8, 12),
    Quad(1, 5, 9, 13),
    Quad(2, 6, 10, 14),
    Quad(3, 7, 11, 15),
    Quad(0, 5, 10, 15),
    Quad(1, 6, 11, 12),
    Quad(2, 7, 8, 13),
    Quad(3, 4, 9, 14),
];

// BLAKE2b's initial values (RFC 7693).
const STARTING_WORDS: [u64; 8] = [
    0x6a09e667f3bcc908,
    0xbb67ae8584caa73b,
    0x3c6ef372fe94f82b,
    0xa54ff53a5f1d36f1,
    0x510e527fade682d1,
    0x9b05688c2b3e6c1f,
    0x1f83d9abfb41bd6b,
    0x5be0cd19137e2179,
];

#[derive(Clone, Copy)]
pub struct Profile;

impl Profile {
    pub const FULL_ROUNDS: usize = 12;

    // The usual choice for the rounds of a reduced call, and for the words by which a cell is rotated.
    pub const USUAL_ROUNDS: usize = 1;

    pub const USUAL_ROTATION: usize = 2;

    pub const BLOCK_WORDS: usize = 8;

    pub const CELL_WORDS: usize = 12;

    // A promise and no code: the numbers are the specification's.
    fn fixed_numbers()
        ensures full { Self.FULL_ROUNDS ≡ full_rounds }
        ensures rounds { Self.USUAL_ROUNDS ≡ usual_rounds }
        ensures rotation { Self.USUAL_ROTATION ≡ usual_rotation }
        ensures block { Self.BLOCK_WORDS ≡ block_words }
        ensures cell { Self.CELL_WORDS ≡ cell_words }
    {}

    // The positions that a round takes in turn.
    #[tactic(auto, unfolding(crate::specs::Profile::quads))]
    pub fn quads() -> [Quad; 8]
        ensures { result ≡ quads }
    {
        QUADS
    }

    // The state before anything is absorbed: zeros, then the starting words.
    pub fn start() -> [u64; 16]
        ensures { result ≡ start }
    {
        let w = STARTING_WORDS;
        [
            0, 0, 0, 0, 0, 0, 0, 0, w[0], w[1], w[2], w[3], w[4], w[5], w[6], w[7],
        ]
    }
}
