//! The cursor: the scope, region and segment of the next statement.

ghost use Rattle.std.specs.Prelude.{◌≡◌, ◌+◌, ◌<◌, ◌≤◌, length, OnOk, IfOk, None, [], if◌then◌else◌};
ghost use Rattle.object65.specs.Objects.{section_limit};
ghost use Rattle.semantics65.specs.Symbols.{is_unnamed, opens_region, Symbols as Table};
ghost use Rattle.semantics65.specs.Layout.{current_after, first_size, with_grown_segment, has_pushed_segments, pushed_segments_after, named_segments, new_segment, opens_scope, existing_or_new_index, segment_index, scope_after, segment_at, segments_after, context_of, start};
ghost use Rattle.syntax65.specs.declared.instructions.names.Mnemonic.{Mnemonic};
ghost use Rattle.ast65.specs.declared.language.Operand.{Operand};
ghost use Rattle.ast65.specs.declared.language.Statement.TheVariants.{Instruction};
ghost use Rattle.symbols65.specs.Views.{table_of};
ghost use Rattle.symbols65.specs.Measuring.{cursor_with_bytes, HasSpareCounts};

use crate::measuring::StatementLayout;
use crate::table::Symbols;
use ast65::Statement;
use base65::ListVec;
use indexmap::IndexSet;
use object65::format::SECTION_LIMIT;
use semantics65::{Context, GLOBAL_SCOPE, Segment};
use std::alloc::{AllocError, Global};
use std::marker::Model;
use syntax65::AddressSize;

/// The state of the layout after the statements so far.
#[derive(Drop)]
pub struct Cursor {
    /// The innermost open scope.
    scope: u32,
    /// The number of scopes that were opened.
    opened: u32,
    /// The number of regions of cheap labels that were opened.
    region: u32,
    /// The number of unnamed labels so far.
    unnamed: u32,
    /// The segments in the order in which they were first named.
    segments: Vec<Segment>,
    /// The index of the current segment.
    current: u32,
    /// The indices of the segments that `.pushseg` saved, the latest one last.
    pushed_segments: Vec<u32>,
    /// The names of the segments, in their order.
    names: IndexSet<Vec<u8>>,
}

impl Model for Cursor {
    ghost use Rattle.semantics65.specs.Layout as layout;

    ghost Value = { layout.Cursor };

    ghost use Rattle.symbols65.specs.Internal.Cursors.{cursor_of, IsWellFormedCursor};

    ghost view = { cursor_of };

    ghost invariant = { IsWellFormedCursor };
}

impl Cursor {
    /// Creates the cursor before the first statement, in the segment CODE.
    pub fn start(alloc: Global) -> Result<Self, AllocError>
        ensures { IfOk result (λ w. w ≡ start) }
    {
        let mut segments = Vec::new(alloc);
        segments.push(segment_of(alloc, b"CODE", None)?)?;
        let mut names = IndexSet::new(alloc);
        names.insert(Vec::from_slice(alloc, b"CODE")?)?;
        Ok(Cursor {
            scope: GLOBAL_SCOPE,
            opened: 0,
            region: 0,
            unnamed: 0,
            segments,
            current: 0,
            pushed_segments: Vec::new(alloc),
            names,
        })
    }

    /// Returns the segments in the order in which they were first named.
    pub fn segments(&self) -> &[Segment]
        ensures { result.now ≡ self.now.segments }
    {
        self.segments.as_slice()
    }

    /// Returns the innermost open scope.
    pub fn scope(&self) -> u32
        ensures { result ≡ self.now.scope }
    {
        self.scope
    }

    /// Returns whether a saved segment is left to return to.
    pub fn has_pushed(&self) -> bool
        ensures { result ≡ has_pushed_segments self.now.pushed_segments }
    {
        !self.pushed_segments.is_empty()
    }

    /// Returns the segment of the next statement.
    pub fn segment(&self) -> &Segment
        ensures current { result.now ≡ segment_at self.now.segments self.now.current }
        ensures within { result.now.end ≤ section_limit }
    {
        &self.segments[self.current as usize]
    }

    /// Returns the index of the segment with this name, if there is one.
    pub fn segment_index(&self, name: &[u8]) -> Option<usize>
        ensures { result ≡ segment_index self.now.segments name.now }
    {
        self.names.get_index_of(name)
    }

    /// Returns the context of the next statement.
    pub fn context(&self) -> Context
        ensures { result ≡ context_of self.now }
    {
        Context {
            scope: self.scope,
            opened: self.opened,
            region: self.region,
            unnamed: self.unnamed,
            segment: self.current,
            offset: self.segment().end,
        }
    }

    /// Returns how many more bytes the current section can hold.
    pub fn remaining_bytes(&self) -> u32
        ensures { (context_of self.now).offset + result ≡ section_limit }
    {
        SECTION_LIMIT - self.segment().end
    }

    /// Extends the current section by `count` bytes, and raises its alignment to
    /// `alignment` if it is lower.
    fn grow(&mut self, count: u32, alignment: u32)
        requires { (context_of self.old).offset + count ≤ section_limit }
        ensures { self.new ≡ record self.old {
          segments = with_grown_segment self.old.segments self.old.current count alignment;
        } }
    {
        let segment = &mut self.segments[self.current as usize];
        segment.end += count;
        segment.align = segment.align.max(alignment);
    }

    /// Makes the segment with this name the current one. Adds it if there is none.
    #[inline(never)]
    fn select(&mut self, name: &[u8], size: Option<AddressSize>) -> Result<(), AllocError>
        requires { length self.old.segments < 4294967295 }
        ensures { OnOk result (self.new ≡ record self.old {
          segments = named_segments self.old.segments name.now size
              (segment_index self.old.segments name.now);
          current = existing_or_new_index self.old.segments
              (segment_index self.old.segments name.now);
        }) }
    {
        let alloc = *self.names.allocator();
        if let Some(index) = self.segment_index(name) {
            self.current = index as u32;
            return Ok(());
        }
        let index = self.segments.len();
        let segment = segment_of(alloc, name, size)?;
        // If memory runs out, neither table gets the segment.
        self.segments.reserve(1)?;
        self.names.insert(Vec::from_slice(alloc, name)?)?;
        self.segments.push_reserved(segment);
        self.current = index as u32;
        Ok(())
    }

    /// Updates the segments after a statement of `count` bytes.
    fn advance_segments(
        &mut self,
        statement: &Statement,
        count: u32,
        alignment: u32,
    ) -> Result<(), AllocError>
        requires few { length self.old.segments < 4294967295 }
        requires fits { (context_of self.old).offset + count ≤ section_limit }
        ensures { OnOk result (self.new ≡ record self.old {
          segments = segments_after self.old.segments self.old.current count alignment
              statement.now;
          current = current_after self.old statement.now;
          pushed_segments = pushed_segments_after self.old statement.now;
        }) }
    {
        match statement {
            Statement::Segment { name, size } => self.select(name.as_slice(), *size),
            Statement::PushSegment => {
                self.grow(count, alignment);
                self.pushed_segments.push(self.current)?;
                Ok(())
            }
            Statement::PopSegment => {
                self.grow(count, alignment);
                if let Some(index) = self.pushed_segments.pop() {
                    self.current = index;
                }
                Ok(())
            }
            _ => {
                self.grow(count, alignment);
                Ok(())
            }
        }
    }

    /// Moves the cursor past an instruction of `count` bytes.
    pub fn advance_by(&mut self, count: u32)
        requires { (context_of self.old).offset + count ≤ section_limit }
        ensures { (y : Table) (m : Mnemonic) (operand : Operand) → self.new
            ≡ cursor_with_bytes y self.old (Instruction m operand) count 1 }
    {
        self.grow(count, 1);
    }

    /// Moves the cursor past a statement with this layout.
    pub fn advance(
        &mut self,
        symbols: &Symbols,
        statement: &Statement,
        measure: StatementLayout,
    ) -> Result<(), AllocError>
        requires fits { (context_of self.old).offset + measure.length ≤ section_limit }
        requires numbers { HasSpareCounts (table_of symbols.now) self.old }
        ensures { OnOk result (self.new ≡ cursor_with_bytes (table_of symbols.now)
            self.old statement.now measure.length measure.alignment) }
    {
        self.count_openings(symbols, statement);
        self.advance_segments(statement, measure.length, measure.alignment)
    }

    /// Updates the open scope and the numbers of scopes, regions and unnamed labels
    /// after a statement.
    fn count_openings(&mut self, symbols: &Symbols, statement: &Statement)
        requires { HasSpareCounts (table_of symbols.now) self.old }
        ensures { self.new ≡ record self.old {
          scope = scope_after (table_of symbols.now) self.old
              statement.now;
          opened = (if opens_scope statement.now then self.old.opened + 1
              else self.old.opened);
          region = (if opens_region statement.now then self.old.region + 1
              else self.old.region);
          unnamed = (if is_unnamed statement.now then self.old.unnamed + 1
              else self.old.unnamed);
        } }
    {
        match statement {
            Statement::OpenScope(_) => {
                self.opened += 1;
                self.scope = self.opened;
            }
            Statement::OpenProc(_) => {
                self.opened += 1;
                self.scope = self.opened;
                self.region += 1;
            }
            Statement::CloseScope | Statement::CloseProc => {
                self.scope = symbols.enclosing(self.scope as usize) as u32;
            }
            Statement::Label(_) => self.region += 1,
            Statement::UnnamedLabel => self.unnamed += 1,
            _ => {}
        }
    }
}

/// Creates a segment. The default size is zero page for ZEROPAGE, and absolute for all
/// others.
fn segment_of(alloc: Global, name: &[u8], size: Option<AddressSize>) -> Result<Segment, AllocError>
    ensures { IfOk result (λ g. g ≡ new_segment name.now (first_size name.now size)) }
{
    let size = match size {
        Some(size) => size,
        None if name == b"ZEROPAGE".as_slice() => AddressSize::ZeroPage,
        None => AddressSize::Absolute,
    };
    let name = ListVec::from_vec(Vec::from_slice(alloc, name)?);
    Ok(Segment {
        name,
        size,
        end: 0,
        align: 1,
    })
}
