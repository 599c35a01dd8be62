//! Adjacent stretches of one size.

ghost use Rattle.std.specs.Prelude.{◌≡◌, ◌<◌, ◌+◌, ◌/◌, ◌^◌, max};
ghost use Rattle.mm_stretches.specs.Stretches.{stretch_count, stretch_start};

/// The numbers below `count`, cut into adjacent stretches of one size. The last one may have fewer
/// numbers, or none.
#[derive(Drop)]
pub struct Stretches {
    count: u32,
    size: u32,
    ghost count_lt_2_31: { count < 2 ^ 31 },
    ghost size_gt_0: { 0 < size },
}

impl Stretches {
    /// Cuts the numbers into a stretch for each worker, or into fewer if these would have fewer
    /// than `least` numbers.
    pub fn new(count: u32, workers: u32, least: u32) -> Stretches
        requires count_lt_2_31 { count < 2 ^ 31 }
        requires some_workers { 0 < workers }
        ensures count_is { result.count ≡ count }
        ensures size_is { result.size ≡ max (count / workers + 1) least }
    {
        Stretches {
            count,
            size: (count / workers + 1).max(least),
        }
    }

    /// Returns how many stretches there are.
    pub fn len(&self) -> u32
        ensures { result ≡ stretch_count self.now.size self.now.count }
    {
        self.count / self.size + 1
    }

    /// Returns the first number of a stretch, and the one behind its last.
    pub fn range(&self, index: u32) -> (u32, u32)
        ensures { result
            ≡ (
              stretch_start self.now.size self.now.count index,
              stretch_start self.now.size self.now.count (index + 1),
            ) }
    {
        (self.start(index), self.start(index.saturating_add(1)))
    }

    /// Returns the first number of a stretch, or how many numbers there are if they end before it.
    fn start(&self, index: u32) -> u32
        ensures { result ≡ stretch_start self.now.size self.now.count index }
    {
        self.size.saturating_mul(index).min(self.count)
    }
}
