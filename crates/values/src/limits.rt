// How long a text may be.
ghost use Rattle.std.specs.Prelude.{◌≡◌, ◌&&◌, nat_le};

#[derive(Clone, Copy)]
pub struct Limits {
    pub least: usize,
    pub most: usize,
}

impl Limits {
    // Whether a text of that length keeps them.
    pub fn allow(self, len: usize) -> bool
        ensures { result ≡ (nat_le self.least len && nat_le len self.most) }
    {
        (self.least..=self.most).contains(&len)
    }
}
