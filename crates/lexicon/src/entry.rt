use tier_core::Timeline;

/// An entry of a lexicon: its name, and its underlying form over the input tiers of a grammar.
#[derive(Drop)]
pub struct Entry {
    pub name: String,
    pub form: Timeline,
}
