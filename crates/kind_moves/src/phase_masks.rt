ghost use Rattle.std.specs.Prelude.{◌≡◌, bit_and};

/// The phases of stretch implications, with one bit for each, counted from 0 in ranked order.
#[derive(Clone, Copy, Debug)]
pub(crate) struct PhaseMasks {
    pub unmet: u32,
    pub met: u32,
    pub ghost apart: { bit_and unmet met ≡ 0 },
}
