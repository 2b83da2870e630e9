// The order in which Setup revisits rows.
#![tactic(auto)]

ghost use Rattle.std.specs.Prelude.{◌≡◌, cond, ◌+◌, ◌-◌, ◌*◌, ◌<◌, ◌≤◌, ◌^◌};
ghost use Rattle.setup_order.specs.SetupOrder.{Fits, first_order, new_window, next_order};

// What the order holds at the step that fills a row. The paper's gap is +1 where rising is true and -1 where it is false.
#[derive(Clone, Copy)]
pub struct Order {
    pub stp: usize,
    pub wnd: usize,
    pub sqrt: usize,
    pub rising: bool,
    pub row1: usize,
    pub prev1: usize,
}

// sqrt + gap
fn with_gap(sqrt: usize, rising: bool) -> usize
    requires { (0 < sqrt) × (sqrt ≤ 2 ^ 32) }
    ensures { result ≡ cond rising (sqrt + 1) (sqrt - 1) }
{
    if rising { sqrt + 1 } else { sqrt - 1 }
}

// sqrt, doubled where gap is then -1.
fn next_sqrt(sqrt: usize, rising: bool) -> usize
    requires { sqrt ≤ 2 ^ 32 }
    ensures { result ≡ cond rising sqrt (2 * sqrt) }
{
    if rising { sqrt } else { 2 * sqrt }
}

impl Order {
    // The order of row 3.
    #[tactic(auto, unfolding(crate::specs::SetupOrder::first_order))]
    pub fn first() -> Order
        ensures { result ≡ first_order }
    {
        Order {
            stp: 1,
            wnd: 2,
            sqrt: 2,
            rising: true,
            row1: 1,
            prev1: 0,
        }
    }

    // The order of the next row.
    #[tactic(auto, unfolding(crate::specs::SetupOrder::next_order, crate::specs::SetupOrder::moved))]
    pub fn next(self) -> Order
        requires { Fits self }
        ensures { result ≡ next_order self }
    {
        let doubled = 2 * self.wnd;
        let row1 = (self.row1 + self.stp) % self.wnd;
        let moved = Order {
            row1,
            prev1: self.row1,
            ..self
        };
        if row1 == 0 {
            return moved.new_window(doubled);
        }
        moved
    }

    // A window twice as wide.
    #[tactic(auto, unfolding(crate::specs::SetupOrder::new_window))]
    fn new_window(self, wnd: usize) -> Order
        requires { (wnd ≡ 2 * self.wnd) × (0 < self.sqrt) × (self.sqrt ≤ 2 ^ 32) }
        ensures { result ≡ new_window self }
    {
        let rising = !self.rising;
        Order {
            stp: with_gap(self.sqrt, self.rising),
            wnd,
            sqrt: next_sqrt(self.sqrt, rising),
            rising,
            ..self
        }
    }
}
