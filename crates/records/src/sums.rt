// What a list holds, as one number: each place, from 1, times what stands there, modulo 10^18.
// It is worked from the last place down: the sum of what stands from a place on is added once for
// each place.
ghost use Rattle.std.specs.Prelude.{◌≡◌, ℕ, ◌+◌, ◌*◌, ◌<◌, map};
ghost use Rattle.records.specs.Weighed.{cut, sum_of};

// A number of a list.
pub trait Number: Copy {
    ghost value: { Self → ℕ };

    // The number, as wide as a sum.
    fn wide(self) -> u64
        ensures { result ≡ value self };
}

impl Number for u8 {
    ghost value = { λ n. n };

    fn wide(self) -> u64 {
        self.into()
    }
}

impl Number for u32 {
    ghost value = { λ n. n };

    fn wide(self) -> u64 {
        self.into()
    }
}

impl Number for u64 {
    ghost value = { λ n. n };

    fn wide(self) -> u64 {
        self
    }
}

// What a sum is cut to.
const CUT: u64 = 1_000_000_000_000_000_000;

// A number below twice that, cut. By a test, since a division at each place would take longer.
fn cut(n: u64) -> u64
    requires { n < 2 * CUT }
    ensures { result ≡ cut n }
{
    if n < CUT { n } else { n - CUT }
}

// The sum so far, and the sum of what stands at the places passed.
#[derive(Drop)]
struct Sum {
    total: u64,
    tail: u64,
}

impl Sum {
    // One place more in front.
    fn with(self, value: u64) -> Sum
        requires { (self.total < CUT) × (self.tail < CUT) }
        ensures { (result.tail ≡ cut (self.tail + value)) ×
            (result.total ≡ cut (self.total + result.tail)) }
    {
        let tail = cut(self.tail + value % CUT);
        let total = cut(self.total + tail);
        Sum { total, tail }
    }
}

// The sum of a list of numbers.
#[tactic(auto, using(crate::proofs::Weighing::worked_none, crate::proofs::Weighing::worked_more, crate::proofs::Weighing::worked_all))]
pub fn of<T: Number>(list: &[T]) -> u64
    ensures { result ≡ sum_of (map T.value list.now) }
{
    let mut sum = Sum { total: 0, tail: 0 };
    for number in list.iter().rev() {
        sum = sum.with(number.wide());
    }
    sum.total
}
