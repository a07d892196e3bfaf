use base_kinds::Fill;

/// What a call of a disk does.
#[derive(Clone, Copy)]
pub enum Outcome {
    Passes,
    Fails,
    Stops(Fill),
}
