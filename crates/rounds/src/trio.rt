// Three stations in rising order.
ghost use Rattle.std.specs.Prelude.{◌<◌};

#[derive(Clone, Copy)]
pub(crate) struct Trio {
    pub(crate) a: u8,
    pub(crate) b: u8,
    pub(crate) c: u8,
    ghost rising: { (a < b) × (b < c) },
    ghost low: { c < 16 },
}
