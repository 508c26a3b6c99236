ghost use Rattle.std.specs.Prelude.{◌≡◌, ◌↔◌, ◌+◌, Contains, IsTrue};
ghost use Rattle.mc_io.specs.Causes.{one_more};

/// The numbers, from 1, of the calls that are to fail, and how many calls were made.
#[derive(Drop)]
pub struct FailingCalls {
    pub numbers: Vec<u64>,
    pub made: u64,
}

impl FailingCalls {
    pub fn new(numbers: Vec<u64>) -> FailingCalls
        ensures numbers { result.numbers ≡ numbers }
        ensures made { result.made ≡ 0 }
    {
        FailingCalls { numbers, made: 0 }
    }

    /// Counts a call, and says whether it is one that is to fail.
    pub fn next_fails(&mut self) -> bool
        ensures fails { IsTrue result ↔ Contains self.old.numbers.items (self.old.made + 1) }
        ensures made { self.new.made ≡ one_more self.old.made }
        ensures numbers { self.new.numbers ≡ self.old.numbers }
    {
        let number = u128::from(self.made) + 1;
        self.made = self.made.saturating_add(1);
        self.numbers.iter().any(|n| u128::from(*n) == number)
    }
}
