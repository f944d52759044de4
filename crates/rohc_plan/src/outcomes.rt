//! The last outcomes in a window, and what one more does to them.

ghost use Rattle.std.specs.Prelude.{◌≤◌};

/// A window of at most 16 outcomes, which k failures among the last n fill.
#[derive(Clone, Copy)]
pub struct Window {
    k: u8,
    n: u8,
    ghost some: { 1 ≤ k },
    ghost within: { k ≤ n },
    ghost few: { n ≤ 16 },
}

/// The last n - 1 outcomes of a window that isn't filled, as the digits of a number in base 2. The last outcome is the
/// lowest digit, and a failure is 1.
#[derive(Clone, Copy, PartialEq, Eq)]
pub struct Outcomes {
    /// The number.
    pub digits: u32,
}

impl Window {
    ghost use Rattle.std.specs.Prelude.{◌≡◌, ◌^◌, ◌<◌, ◌-◌, ◌&&◌, false, nat_le, IfNone, IfSome};
    ghost use Rattle.rohc_plan.specs.Outcomes.{is_filled, outcomes_after};

    /// The window, if it is one of at most 16 outcomes.
    pub fn new(k: u8, n: u8) -> Option<Window>
        ensures some { IfSome result (λ w. (w.k ≡ k) × (w.n ≡ n)) }
        ensures none { IfNone result ((nat_le 1 k && nat_le k n && nat_le n 16) ≡ false) }
    {
        if 1 <= k && k <= n && n <= 16 {
            Some(Window { k, n })
        } else {
            None
        }
    }

    /// How many outcomes there can be before one more: 2 to the power of n - 1.
    pub fn states(&self) -> u32
        ensures { result ≡ 2 ^ (self.now.n - 1) }
    {
        1u32 << (self.n - 1)
    }

    /// Whether one failure more fills the window.
    pub fn is_filled(&self, outcomes: Outcomes) -> bool
        ensures { result ≡ is_filled self.now.k outcomes.digits }
    {
        u32::from(self.k) <= outcomes.digits.count_ones() + 1
    }

    /// The outcomes after one more.
    pub fn after(&self, outcomes: Outcomes, failed: bool) -> Outcomes
        requires { outcomes.digits < 2 ^ (self.now.n - 1) }
        ensures value { result.digits ≡ outcomes_after self.now.n outcomes.digits failed }
        ensures within { result.digits < 2 ^ (self.now.n - 1) }
    {
        Outcomes {
            digits: (outcomes.digits * 2 + u32::from(failed)) % self.states(),
        }
    }
}
