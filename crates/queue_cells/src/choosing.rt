// Which groups are meant.
ghost use Rattle.std.specs.Prelude.{◌≡◌, Bool};

/// A test on what is told of a group.
pub trait Selects<G> {
    /// Whether it selects a group of which this is told.
    ghost is_selected: { Self → G → Bool };

    fn selects(&self, told: &G) -> bool
        ensures { result ≡ is_selected self.now told.now };
}
