use base_lists::NoMemory;

/// What waits a while before something is tried again. Contracts see nothing of it.
pub trait Pacer: Sized {
    /// Waits a while.
    fn pause(&mut self);

    /// A further pacer of the same kind, for another thread.
    fn twin(&self) -> Result<Self, NoMemory>;
}

/// A pacer that doesn't wait.
#[derive(Drop)]
pub struct IdlePacer;

impl Pacer for IdlePacer {
    fn pause(&mut self) {}

    fn twin(&self) -> Result<IdlePacer, NoMemory> {
        Ok(IdlePacer)
    }
}
