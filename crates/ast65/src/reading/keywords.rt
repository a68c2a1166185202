//! The table of directives.

ghost use Rattle.std.specs.Prelude.{◌≡◌, map};
ghost use Rattle.ast65.specs.Parsing.{keyword_directive, directive_of};

use base65::Width;
use syntax65::AddressSize;

/// The kind of a list's elements.
#[derive(Clone, Copy)]
pub enum ElementKind {
    Values,
    ValuesAndTexts,
}

/// A directive with a size: `n[,v]`.
#[derive(Clone, Copy)]
pub enum SizedDirective {
    Reserve,
    Align,
}

/// A directive without operands.
#[derive(Clone, Copy)]
pub enum BareDirective {
    PushSegment,
    PopSegment,
    EndScope,
    EndProc,
    /// `.p02`
    Processor,
    Code,
    Rodata,
    Data,
    Bss,
    ZeroPage,
}

/// A directive with a list of names.
#[derive(Clone, Copy)]
pub enum NameListDirective {
    Import(AddressSize),
    Export,
    Global(AddressSize),
    ForceImport,
}

/// A directive that prints.
#[derive(Clone, Copy)]
pub enum Message {
    Out,
    Warning,
}

/// A directive, with its variant.
#[derive(Clone, Copy)]
pub enum Directive {
    List(ElementKind, Width),
    /// `.asciiz`
    Asciiz,
    Sized(SizedDirective),
    /// `.incbin`
    Incbin,
    Segment,
    Bare(BareDirective),
    Scope,
    Proc,
    Names(NameListDirective),
    Assert,
    Message(Message),
    /// `.setcpu`
    SetProcessor,
}

/// The directives by name.
static DIRECTIVE_KEYWORDS: [(&[u8], Directive); 34] = [
    (
        b".byte",
        Directive::List(ElementKind::ValuesAndTexts, Width::Byte),
    ),
    (
        b".byt",
        Directive::List(ElementKind::ValuesAndTexts, Width::Byte),
    ),
    (b".word", Directive::List(ElementKind::Values, Width::Word)),
    (b".addr", Directive::List(ElementKind::Values, Width::Word)),
    (
        b".dbyt",
        Directive::List(ElementKind::Values, Width::BigEndianWord),
    ),
    (
        b".dword",
        Directive::List(ElementKind::Values, Width::Dword),
    ),
    (b".asciiz", Directive::Asciiz),
    (b".res", Directive::Sized(SizedDirective::Reserve)),
    (b".align", Directive::Sized(SizedDirective::Align)),
    (b".incbin", Directive::Incbin),
    (b".segment", Directive::Segment),
    (b".pushseg", Directive::Bare(BareDirective::PushSegment)),
    (b".popseg", Directive::Bare(BareDirective::PopSegment)),
    (b".code", Directive::Bare(BareDirective::Code)),
    (b".rodata", Directive::Bare(BareDirective::Rodata)),
    (b".data", Directive::Bare(BareDirective::Data)),
    (b".bss", Directive::Bare(BareDirective::Bss)),
    (b".zeropage", Directive::Bare(BareDirective::ZeroPage)),
    (b".scope", Directive::Scope),
    (b".endscope", Directive::Bare(BareDirective::EndScope)),
    (b".proc", Directive::Proc),
    (b".endproc", Directive::Bare(BareDirective::EndProc)),
    (
        b".import",
        Directive::Names(NameListDirective::Import(AddressSize::Absolute)),
    ),
    (
        b".importzp",
        Directive::Names(NameListDirective::Import(AddressSize::ZeroPage)),
    ),
    (b".export", Directive::Names(NameListDirective::Export)),
    (b".exportzp", Directive::Names(NameListDirective::Export)),
    (
        b".global",
        Directive::Names(NameListDirective::Global(AddressSize::Absolute)),
    ),
    (
        b".globalzp",
        Directive::Names(NameListDirective::Global(AddressSize::ZeroPage)),
    ),
    (
        b".forceimport",
        Directive::Names(NameListDirective::ForceImport),
    ),
    (b".assert", Directive::Assert),
    (b".out", Directive::Message(Message::Out)),
    (b".warning", Directive::Message(Message::Warning)),
    (b".p02", Directive::Bare(BareDirective::Processor)),
    (b".setcpu", Directive::SetProcessor),
];

/// Returns the entry of a word in a table, in upper or lower case.
fn keyword_directive(table: &[(&[u8], Directive)], keyword: &[u8]) -> Option<Directive>
    ensures { result ≡ keyword_directive (map (λ row. (row.0.now, row.1)) table.now) keyword.now }
{
    for row in table {
        if keyword.eq_ignore_ascii_case(row.0) {
            return Some(row.1);
        }
    }
    None
}

/// Returns the directive with this name.
pub fn directive_of(keyword: &[u8]) -> Option<Directive>
    ensures { result ≡ directive_of keyword.now }
{
    keyword_directive(&DIRECTIVE_KEYWORDS, keyword)
}
