use tier_core::Class;

/// An arc that enters a state: its class, and the position in the list of the state that it leaves.
#[derive(Drop)]
pub(crate) struct Entering {
    pub source: u32,
    pub class: Class,
}
