//! What the assembler holds between two statements.

ghost use Rattle.symbols65.specs.Views.{table_of};
ghost use Rattle.asm65.specs.Internal.AssemblerState.{environment_in, Represents};
ghost use Rattle.std.specs.Prelude.{IfOk};
ghost use Rattle.sources65.specs.Machine.{initial_state};

use crate::texts::ConsoleOutput;
use base65::Seed;
use emit65::Sections;
use expand65::Knows;
use semantics65::Context;
use std::alloc::{AllocError, Global};
use symbols65::constants::constant;
use symbols65::{Cursor, Symbols, definition_of};
use syntax65::{Expr, Name};

/// The names and expressions that are known in a context, by the definitions before it.
#[derive(Clone, Copy)]
pub struct Knowledge<'a> {
    pub symbols: &'a Symbols,
    pub context: Context,
}

impl Knows for Knowledge<'_> {
    ghost meaning = { λ k. environment_in (table_of k.symbols.now) k.context };

    fn value(&self, expr: &Expr) -> Result<Option<i64>, AllocError> {
        constant(self.symbols, self.context, expr)
    }

    fn defined(&self, name: &Name) -> bool {
        definition_of(self.symbols, self.context, name).is_some()
    }
}

/// The state of the assembler between two statements.
#[derive(Drop)]
pub struct Assembler {
    pub symbols: Symbols,
    pub cursor: Cursor,
    /// Section contents, declarations and pending fixups.
    pub sections: Sections,
    pub texts: ConsoleOutput,
}

impl Assembler {
    /// Creates the assembler before the first statement.
    pub fn new(alloc: Global, seed: Seed) -> Result<Self, AllocError>
        ensures { IfOk result (Represents 0 initial_state) }
    {
        Ok(Assembler {
            symbols: Symbols::new(alloc, seed),
            cursor: Cursor::start(alloc)?,
            sections: Sections::new(alloc, seed),
            texts: ConsoleOutput::new(alloc),
        })
    }
}
