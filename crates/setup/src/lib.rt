// Setup: every row of the matrix is written once, and rows before it are revisited.
#![tactic(auto)]

ghost use Rattle.std.specs.Prelude.{◌≡◌, ◌+◌, ◌*◌, ◌-◌, ◌≤◌, ◌<◌, ◌^◌, length};
ghost use Rattle.profile.specs.Profile.{cell_words};
ghost use Rattle.settings.specs.Settings.{settings};
ghost use Rattle.columns.specs.Bounds.{starts_of, Apart, Within};
ghost use Rattle.columns.specs.Columns.{work};
ghost use Rattle.setup_order.specs.SetupOrder.{order};
ghost use Rattle.setup.specs.Setup.{fill_row, copy_row, setup_row, first_rows, setup_step, setup_rows, setup};
ghost use Rattle.setup.specs.Reach.{Reach};

use columns::{Rows, Starts};
use first_columns::{copy_column, fill_column};
use places::{Column, Row, RowStart};
use settings::Parameters;
use setup_columns::setup_column;
use setup_order::Order;

// A first row. Each row function finds where its rows start, fills a row from its last column down, and answers how many reduced calls it
// made.
fn fill_row(s: &mut [u64; 16], m: &mut [u64], row0: Row, p: Parameters) -> u64
    requires { cell_words * (row0.0 * p.columns + p.columns) ≤ length m.old }
    ensures { (result ≡ p.columns) × (work s.new m.new ≡ fill_row (settings p) row0.0 (work s.old m.old)) }
{
    let to = RowStart::of(row0, p.columns);
    let mut calls: u64 = 0;
    for mirror in (0..p.columns).rev() {
        fill_column(s, m, to, Column(mirror), p);
        calls += 1;
    }
    calls
}

// One of the next two rows.
fn copy_row(s: &mut [u64; 16], m: &mut [u64], prev0: Row, row0: Row, p: Parameters) -> u64
    requires { (cell_words * (prev0.0 * p.columns + p.columns) ≤ length m.old) × (cell_words * (row0.0 * p.columns + p.columns) ≤ length m.old) }
    ensures { (result ≡ p.columns) × (work s.new m.new ≡ copy_row (settings p) prev0.0 row0.0 (work s.old m.old)) }
{
    let from = RowStart::of(prev0, p.columns);
    let to = RowStart::of(row0, p.columns);
    let mut calls: u64 = 0;
    let mut mirror = p.columns;
    for col in 0..p.columns {
        mirror -= 1;
        copy_column(s, m, from, to, Column(col), Column(mirror), p);
        calls += 1;
    }
    calls
}

// A row from 3 on.
fn setup_row(s: &mut [u64; 16], m: &mut [u64], rows: Rows, p: Parameters) -> u64
    requires { Within p.columns (starts_of p.columns rows) (length m.old) × Apart p.columns (starts_of p.columns rows) }
    ensures { (result ≡ p.columns) × (work s.new m.new ≡ setup_row (settings p) rows (work s.old m.old)) }
{
    let starts = Starts::of(rows, p.columns);
    let mut calls: u64 = 0;
    let mut mirror = p.columns;
    for col in 0..p.columns {
        mirror -= 1;
        setup_column(s, m, starts, Column(col), Column(mirror), p);
        calls += 1;
    }
    calls
}

// Rows 0 to 2, counted from row `own` of the matrix on.
pub fn first_rows(s: &mut [u64; 16], m: &mut [u64], own: usize, p: Parameters) -> u64
    requires { (own < 2 ^ 32) × (cell_words * ((own + 3) * p.columns) ≤ length m.old) }
    ensures { (result ≡ 3 * p.columns) × (work s.new m.new ≡ first_rows (settings p) own (work s.old m.old)) }
{
    let first = fill_row(s, m, Row(own), p);
    let second = copy_row(s, m, Row(own), Row(own + 1), p);
    let third = copy_row(s, m, Row(own + 1), Row(own + 2), p);
    first + second + third
}

// Row 3 + k, with its place in the order; the revisited rows are counted from row `other` on.
fn setup_step(
    s: &mut [u64; 16],
    m: &mut [u64],
    own: usize,
    other: usize,
    k: usize,
    o: Order,
    p: Parameters,
) -> u64
    requires { (o ≡ order k) × Reach p.columns own other (4 + k) (length m.old) }
    ensures { (result ≡ p.columns) × (work s.new m.new ≡ setup_step (settings p) own other k (work s.old m.old)) }
{
    let rows = Rows {
        row0: Row(own + (3 + k)),
        row1: Row(other + o.row1),
        prev0: Row(own + (2 + k)),
        prev1: Row(other + o.prev1),
    };
    setup_row(s, m, rows, p)
}

// What steps of Setup leave behind: the order of the next row, and the count of reduced calls.
#[derive(Clone, Copy)]
pub struct SetUp {
    pub order: Order,
    pub calls: u64,
}

// n rows from row 3 + k on, whose order is given. The first is called for by itself, so that the compiler leaves a row a function of its
// own, which is faster.
pub fn setup_rows(
    s: &mut [u64; 16],
    m: &mut [u64],
    own: usize,
    other: usize,
    k: usize,
    n: usize,
    o: Order,
    p: Parameters,
) -> SetUp
    requires { (o ≡ order k) × Reach p.columns own other (3 + (k + n)) (length m.old) }
    ensures { (result.order ≡ order (k + n)) × (result.calls ≡ n * p.columns) × (work s.new m.new ≡ setup_rows (settings p) own other k n (work s.old m.old)) }
{
    if n == 0 {
        return SetUp { order: o, calls: 0 };
    }
    let mut calls = setup_step(s, m, own, other, k, o, p);
    let mut next = o.next();
    for d in 1..n {
        calls += setup_step(s, m, own, other, k + d, next, p);
        next = next.next();
    }
    SetUp { order: next, calls }
}

// All of Setup, over R rows and C columns.
pub fn set_up(s: &mut [u64; 16], m: &mut [u64], p: Parameters) -> SetUp
    requires { (3 ≤ p.rows) × (p.rows ≤ 2 ^ 31) × (cell_words * (p.rows * p.columns) ≤ length m.old) }
    ensures { (result.order ≡ order (p.rows - 3)) × (result.calls ≡ p.rows * p.columns) × (work s.new m.new ≡ setup (settings p) (work s.old m.old)) }
{
    let first = first_rows(s, m, 0, p);
    let rest = setup_rows(s, m, 0, 0, 0, p.rows - 3, Order::first(), p);
    SetUp {
        calls: first + rest.calls,
        ..rest
    }
}
