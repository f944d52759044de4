//! Windows of recent outcomes: which of the last arrivals were failures (RFC 3095 5.3.2.2.3).

ghost use Rattle.std.specs.Prelude.{◌≤◌, ◌<◌, ◌^◌};

/// The outcomes of the last arrivals, at most 64.
#[derive(Clone, Copy, PartialEq, Eq)]
pub struct Window {
    /// One bit for each outcome, the newest in the lowest bit; 1 is a failure.
    pub word: u64,
    /// How many outcomes there are.
    pub length: u8,
    ghost few: { length ≤ 64 },
    ghost none_above: { word < 2 ^ length },
}

impl Window {
    ghost use Rattle.std.specs.Prelude.{◌≡◌, ◌≤◌, [], take, count_by};
    ghost use Rattle.rohc_context.specs.Window.{and_outcome, is_filled, outcomes};

    /// A window without outcomes.
    #[tactic(auto, unfolding(crate::specs::Window::outcomes))]
    pub(crate) fn empty() -> Window
        ensures none { outcomes result ≡ [] }
        ensures length { result.length ≡ 0 }
    {
        Window { word: 0, length: 0 }
    }

    /// Adds one more outcome. The last 64 are kept.
    #[tactic(auto, unfolding(crate::specs::Window::outcomes, crate::specs::Window::and_outcome))]
    #[inline(always)]
    pub(crate) fn push(&mut self, failure: bool)
        ensures { outcomes self.new ≡ and_outcome failure (outcomes self.old) }
    {
        self.word = (self.word << 1) + u64::from(failure);
        self.length += u8::from(self.length < 64);
    }

    /// This window with one more outcome.
    pub(crate) fn and(self, failure: bool) -> Window
        ensures { outcomes result ≡ and_outcome failure (outcomes self) }
    {
        let mut window = self;
        window.push(failure);
        window
    }

    /// Whether at least `k` of the last `n` outcomes are failures. `n` is at most 64.
    #[tactic(auto, unfolding(crate::specs::Window::is_filled))]
    pub(crate) fn is_filled(self, k: u8, n: u8) -> bool
        requires { n ≤ 64 }
        ensures { result ≡ is_filled k n (outcomes self) }
    {
        self.failures(n) >= u32::from(k)
    }

    /// How many of the last `n` outcomes are failures.
    #[tactic(auto, unfolding(crate::specs::Window::outcomes))]
    fn failures(self, n: u8) -> u32
        requires { n ≤ 64 }
        ensures { result ≡ count_by (λ failure. failure) (take n (outcomes self)) }
    {
        let newest = if n == 64 {
            self.word
        } else {
            self.word % (1 << n)
        };
        newest.count_ones()
    }
}
