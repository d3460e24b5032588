use tier_core::Class;

/// The pieces of a class: those inside the tests, and those outside them.
#[derive(Drop)]
pub struct Split {
    /// The columns that are in some test.
    pub inside: Vec<Class>,
    /// The columns that are in no test.
    pub outside: Vec<Class>,
}
