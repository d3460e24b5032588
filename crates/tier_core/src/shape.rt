ghost use Rattle.std.specs.Prelude.{◌≡◌, ◌<◌, ◌≤◌, ◌^◌, length};
ghost use Rattle.tier_core.specs.Shapes.{masked_count, NeverFalls};

/// What the text of an answer takes from its grammar.
///
/// `width` is the number of tiers, `inputs` the mask of the input tiers, and `phases[r]` the number
/// of stretch implications among the first r constraints.
#[derive(Drop)]
pub struct Shape {
    pub width: u32,
    pub inputs: u16,
    pub phases: Vec<u32>,
    pub ghost some: { 1 ≤ width },
    pub ghost few: { width ≤ 12 },
    pub ghost some_input: { 1 ≤ masked_count inputs },
    pub ghost few_inputs: { masked_count inputs ≤ 6 },
    pub ghost within: { inputs < 2 ^ width },
    pub ghost some_stage: { 1 ≤ length phases.items },
    pub ghost few_stages: { length phases.items ≤ 25 },
    pub ghost rising: { NeverFalls phases.items },
}
