// When a simulated command is due.
ghost use Rattle.order.proofs.Pairs.{pair_tied};

use order::Ordered;

// The earlier tick comes first, and of equal ticks the lower edge.
#[derive(Clone, Copy, PartialEq, Eq, PartialOrd, Ord)]
pub struct Due {
    pub tick: u64,
    pub edge: usize,
}

impl Ordered for Due {
    ghost total = { λ x y e. let t = pair_tied x.tick y.tick x.edge y.edge e in λ i. record { tick = t.0 i; edge = t.1 i } };
}
