// When a replayed command is to end.
ghost use Rattle.order.proofs.Pairs.{pair_tied};

use order::Ordered;

// The place of the edge's next ending among those left; past the last where it has none. The nearer ending comes first, and of
// equal places the lower edge.
#[derive(Clone, Copy, Default, PartialEq, Eq, PartialOrd, Ord)]
pub struct Turn {
    pub place: usize,
    pub edge: usize,
}

impl Ordered for Turn {
    ghost total = { λ x y e. let t = pair_tied x.place y.place x.edge y.edge e in λ i. record { place = t.0 i; edge = t.1 i } };
}
