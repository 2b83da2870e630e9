// Words of wordwise sums of cells, so that a sum goes into the state with no cell in between.
#![tactic(auto)]

ghost use Rattle.std.specs.Prelude.{◌≡◌, ◌<◌, length, get_or};
ghost use Rattle.profile.specs.Profile.{cell_words};
ghost use Rattle.cell_sums.specs.CellSum.{cell_sum};

// Word j of the sum of three cells.
pub fn sum3_at(a: &[u64], b: &[u64], c: &[u64], j: usize) -> u64
    requires { (length a.now ≡ cell_words) × (length b.now ≡ cell_words) × (length c.now ≡ cell_words) × (j < cell_words) }
    ensures { result ≡ get_or (cell_sum (cell_sum a.now b.now) c.now) j 0 }
{
    a[j].wrapping_add(b[j]).wrapping_add(c[j])
}

// Word j of the sum of four cells.
pub fn sum4_at(a: &[u64], b: &[u64], c: &[u64], d: &[u64], j: usize) -> u64
    requires { (length a.now ≡ cell_words) × (length b.now ≡ cell_words) × (length c.now ≡ cell_words) × (length d.now ≡ cell_words) × (j < cell_words) }
    ensures { result ≡ get_or (cell_sum (cell_sum (cell_sum a.now b.now) c.now) d.now) j 0 }
{
    sum3_at(a, b, c, j).wrapping_add(d[j])
}
