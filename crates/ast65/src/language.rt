//! The statements of the language, after preprocessing.

ghost use Rattle.std.specs.Prelude.{◌≡◌, None, Some, IfOk, option_map};
ghost use Rattle.ast65.specs.Items.{items_of};

use base65::{Action, ListVec, Width};
use std::alloc::{AllocError, Global};
use std::marker::Model;
use syntax65::{AddressSize, Expr, Identifier, Mnemonic};

/// An element of a list of data.
#[derive(Drop)]
pub enum Item {
    Value(Expr),
    StringLiteral(ListVec<u8>),
}

/// The elements of a list of data. The contract view is a list of items.
#[derive(Drop)]
pub struct Items {
    kind: ItemsKind,
}

/// The storage of the elements of a list.
#[derive(Drop)]
pub enum ItemsKind {
    /// Numbers only.
    Numbers(ListVec<u32>),
    Mixed(ListVec<Item>),
}

impl Model for Items {
    ghost use Rattle.std.specs.Prelude.{List};
    ghost use Rattle.std.specs.Coded.{coded_list};
    ghost use Rattle.ast65.specs.contracts.language.Item.{the_row};
    ghost use Rattle.ast65.specs.declared.language.Item.{Item};
    ghost use Rattle.ast65.specs.Items.{items_of};

    ghost Value = { List Item };

    ghost coded = { coded_list the_row.coded };

    ghost view = { λ i. items_of i.kind };
}

impl Items {
    /// Returns the elements stored like this.
    pub fn new(kind: ItemsKind) -> Self
        ensures { result ≡ items_of kind }
    {
        Items { kind }
    }

    /// Borrows the storage.
    pub fn kind(&self) -> &ItemsKind
        ensures { items_of result.now ≡ self.now }
    {
        &self.kind
    }

    /// Returns the storage.
    pub fn into_kind(self) -> ItemsKind
        ensures { items_of result ≡ self }
    {
        self.kind
    }
}

/// An index register.
#[derive(Clone, Copy)]
pub enum Index {
    X,
    Y,
}

/// The operand of an instruction.
#[derive(Drop)]
pub enum Operand {
    Absent,
    /// `a`
    Accumulator,
    /// `#e`
    Immediate(Expr),
    /// `e`, `e,x` or `e,y`, with an optional prefix that forces the address size.
    Address {
        prefix: Option<AddressSize>,
        value: Expr,
        index: Option<Index>,
    },
    /// `(e)`
    Indirect(Expr),
    /// `(e,x)`
    IndirectX(Expr),
    /// `(e),y`
    IndirectY(Expr),
}

/// An optional expression. Its contract view has no box.
#[derive(Drop)]
pub struct OptionalExpr {
    expr: Option<Box<Expr>>,
}

impl Model for OptionalExpr {
    ghost use Rattle.std.specs.Prelude.{Option, box_value, option_map};
    ghost use Rattle.std.specs.Coded.{coded_option};
    ghost use Rattle.syntax65.specs.Trees.{Tree, tree_code};

    ghost Value = { Option Tree };

    ghost coded = { coded_option tree_code };

    ghost view = { λ e. option_map (λ b. b.value) e.expr };
}

impl OptionalExpr {
    /// Returns the absent expression.
    pub fn none() -> Self
        ensures { result ≡ None }
    {
        OptionalExpr { expr: None }
    }

    /// Returns this expression.
    pub fn some(alloc: Global, expr: Expr) -> Result<Self, AllocError>
        ensures { IfOk result (λ e. e ≡ Some expr) }
    {
        Ok(OptionalExpr {
            expr: Some(Box::new(alloc, expr)?),
        })
    }

    /// Returns the expression, if there is one.
    pub fn get(&self) -> Option<&Expr>
        ensures { option_map (λ e. e.now) result ≡ self.now }
    {
        match &self.expr {
            Some(expr) => Some(expr),
            None => None,
        }
    }
}

/// The part of a file that `.incbin` selects: a start and a length. The default is the whole file.
#[derive(Clone, Copy)]
pub struct IncbinRange<'a> {
    pub start: &'a OptionalExpr,
    pub len: &'a OptionalExpr,
}

/// A statement.
#[derive(Drop)]
pub enum Statement {
    /// `name:`
    Label(Identifier),
    /// `@name:`, the name with its `@`.
    CheapLabel(Identifier),
    /// `:`
    UnnamedLabel,
    /// `name = e`
    Constant {
        name: Identifier,
        value: Expr,
    },
    Instruction {
        mnemonic: Mnemonic,
        operand: Operand,
    },
    /// `.byte` and similar directives.
    Values {
        width: Width,
        items: Items,
    },
    /// `.res n[,v]`
    Reserve {
        count: Expr,
        value: OptionalExpr,
    },
    /// `.align n[,v]`
    Align {
        alignment: Expr,
        value: OptionalExpr,
    },
    /// `.incbin` with the name of its file, as parsed.
    IncbinPath {
        name: ListVec<u8>,
        start: OptionalExpr,
        len: OptionalExpr,
    },
    /// `.incbin` with the bytes of its file, if the file exists.
    Incbin {
        bytes: Option<ListVec<u8>>,
        start: OptionalExpr,
        len: OptionalExpr,
    },
    /// `.segment "N"` with an optional address size; `.code` and similar directives.
    Segment {
        name: ListVec<u8>,
        size: Option<AddressSize>,
    },
    PushSegment,
    PopSegment,
    /// `.scope`, with an optional name.
    OpenScope(Option<Identifier>),
    CloseScope,
    /// `.proc n`
    OpenProc(Identifier),
    CloseProc,
    /// `.import`, `.importzp`
    Import {
        size: AddressSize,
        names: ListVec<ListVec<u8>>,
    },
    /// `.export`, `.exportzp`
    Export(ListVec<ListVec<u8>>),
    /// `.global`, `.globalzp`
    Global {
        size: AddressSize,
        names: ListVec<ListVec<u8>>,
    },
    ForceImport(ListVec<ListVec<u8>>),
    Assert {
        value: Expr,
        action: Action,
        text: ListVec<u8>,
    },
    /// `.out`
    Out(ListVec<u8>),
    /// `.warning`
    Warning(ListVec<u8>),
    /// `.setcpu "6502"` and `.p02`, which have no effect.
    Nothing,
}
