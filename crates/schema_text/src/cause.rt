ghost use Rattle.std.specs.Prelude.{◌≡◌};
ghost use Rattle.schema_text.specs.Causes.{cause_text};

use base_kinds::NoMemory;

/// Why a text is no schema.
#[derive(Clone, Copy, Debug, PartialEq, Eq)]
pub enum Cause {
    /// The line is none of the lines of a schema, or it is the last one and has no line feed.
    Syntax,
    /// No `module` line stands before it.
    NoModule,
    /// Its path without the last name is no container or list before it.
    NoParent,
    /// Its path is a node already.
    Twice,
    /// The line, the text up to its end or the number of nodes is above its limit.
    TooLarge,
    /// A key has no leaf of its list in the list's module.
    NoKey,
    /// The leaf refers to no leaf of an equal shape.
    BadRef,
}

/// Where a text first is no schema, its lines counted from 1, and why.
#[derive(Clone, Copy, Debug, PartialEq, Eq)]
pub struct SchemaFault {
    pub line: u32,
    pub cause: Cause,
}

#[derive(Clone, Copy, Debug, PartialEq, Eq)]
pub enum SchemaError {
    Fault(SchemaFault),
    NoMemory,
}

impl Cause {
    /// As it is printed.
    pub fn text(&self) -> &'static [u8]
        ensures { result.now ≡ cause_text self.now }
    {
        match self {
            Cause::Syntax => b"syntax",
            Cause::NoModule => b"no module",
            Cause::NoParent => b"no parent",
            Cause::Twice => b"twice",
            Cause::TooLarge => b"too large",
            Cause::NoKey => b"no key",
            Cause::BadRef => b"bad ref",
        }
    }
}

impl From<NoMemory> for SchemaError {
    ghost use Rattle.std.specs.Prelude.{◌≡◌};
    ghost use Rattle.schema_text.specs.declared.cause.SchemaError.TheVariants.{NoMemory as OutOfMemory};

    ghost from_gives = { λ _ error. error ≡ OutOfMemory };

    fn from(_e: NoMemory) -> SchemaError {
        SchemaError::NoMemory
    }
}
