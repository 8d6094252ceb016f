// A chain of cells: its first and last cell, and how many there are. Which cell comes after which is
// in an array `nexts`, which all chains share.
ghost use Rattle.std.specs.Prelude.{◌≡◌, ◌+◌, ◌^◌, ◌<◌, ◌≤◌, length};
ghost use Rattle.links.specs.Walk.{hop, Inside, front, back, cat, linked};

// Where there are none, the first and the last say nothing: the count tells, and an Option of both would tell it twice.
#[derive(Clone, Copy)]
pub(crate) struct Chain {
    pub(crate) first: usize,
    pub(crate) last: usize,
    pub(crate) count: usize,
}

impl Chain {
    pub(crate) const EMPTY: Chain = Chain {
        first: 0,
        last: 0,
        count: 0,
    };

    // The cell that lies n steps past the first. It takes n steps.
    pub(crate) fn cell(self, nexts: &[usize], n: usize) -> usize
        requires inside { Inside nexts.now self }
        requires within { n < self.count }
        ensures answer { result ≡ hop nexts.now self.first n }
    {
        // A loop: nothing would tell a fold's closure that the cell it is at is inside.
        let mut at = self.first;
        for _ in 0..n {
            at = nexts[at];
        }
        at
    }

    // The first n cells, and the rest. It takes n steps, so that nothing is walked at 0.
    pub(crate) fn split(self, nexts: &[usize], n: usize) -> (Chain, Chain)
        requires inside { Inside nexts.now self }
        requires within { n ≤ self.count }
        ensures front { result.0 ≡ front nexts.now self n }
        ensures back { result.1 ≡ back nexts.now self n }
    {
        let (last, next) = if n == 0 {
            (self.first, self.first)
        } else {
            let last = self.cell(nexts, n - 1);
            (last, nexts[last])
        };
        (
            Chain {
                first: self.first,
                last,
                count: n,
            },
            Chain {
                first: next,
                last: self.last,
                count: self.count - n,
            },
        )
    }

    // This chain and then the other, in constant time.
    pub(crate) fn join(self, nexts: &mut [usize], other: Chain) -> Chain
        requires inside { 0 < self.count → self.last < length nexts.old }
        requires fits { self.count + other.count < 2 ^ 64 }
        ensures chain { result ≡ cat self other }
        ensures nexts { nexts.new ≡ linked nexts.old self other }
    {
        if self.count == 0 {
            return other;
        }
        nexts[self.last] = other.first;
        let last = if other.count == 0 {
            self.last
        } else {
            other.last
        };
        Chain {
            first: self.first,
            last,
            count: self.count + other.count,
        }
    }
}
