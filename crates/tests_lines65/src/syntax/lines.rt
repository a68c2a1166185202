//! The tokens of lines. A row's answer has each token as its kind, a blank, its bytes and `|`, or the fault's words.

use std::alloc::{AllocError, Global};
use std::test::Fail;
use syntax65::{AddressSize, LexFault, Lexer, Token, TokenKind, first_tokens, line_tokens};

/// A line, an arrow and what it is read as: one of each kind, and lines that no source shows to be read so. Numbers, names,
/// strings and faults are among the cases.
const ROWS: &str = "\
\tlda\t#$FF ; c ==> i lda|m #|255 $FF|
.byte 0FFh, %101, 'c' ==> d .byte|255 0FFh|m ,|5 %101|m ,|h99 'c'|
@l: lda Z:5,x ==> c @l|m :|i lda|z Z:|5 5|m ,|i x|
\"a;b\";c ==> s \"a;b\"|
$G [ ==> bad number
:+ :++ :- :--- ==> u :+|u :++|u :-|u :---|
:+- :-+ ==> u :+|m -|u :-|m +|
: + ==> m :|m +|
:: := : :a ==> m ::|m :=|m :|m :|i a|
::: :::+ ==> m ::|m :|m ::|u :+|
::= :== ==> m ::|m =|m :=|m =|
::+ :=+ ==> m ::|m +|m :=|m +|
A::b ==> i A|m ::|i b|
lda A:z:5 ==> i lda|a A:|z z:|5 5|
a:5 ==> i a|m :|5 5|
 \tz: nop ==> i z|m :|i nop|
l: a: nop ==> i l|m :|a a:|i nop|
lda a::b ==> i lda|i a|m ::|i b|
lda z:=5 ==> i lda|i z|m :=|5 5|
lda a:+ ==> i lda|a a:|m +|
lda a:-- ==> i lda|a a:|m -|m -|
lda a :5 ==> i lda|i a|m :|5 5|
lda za:5 ==> i lda|i za|m :|5 5|
lda a1:5 ==> i lda|i a1|m :|5 5|
lda @a:5 ==> i lda|c @a|m :|5 5|
lda z: ==> i lda|z z:|
lda z:;c ==> i lda|z z:|
lda z: : ==> i lda|z z:|m :|
(a:5 ==> m (|a a:|5 5|
x:5 ==> i x|m :|5 5|
lda x:5 ==> i lda|i x|m :|5 5|
<> <= >= ==> m <>|m <=|m >=|
<< >> && ==> m <<|m >>|m &&|
|| | + - ==> m |||m ||m +|m -|
* / & ^ ~ ==> m *|m /|m &|m ^|m ~|
< > = ! ==> m <|m >|m =|m !|
()#,{} ==> m (|m )|m #|m ,|m {|m }|
<<= >>> ==> m <<|m =|m >>|m >|
<>= >< ==> m <>|m =|m >|m <|
&&& ||| ==> m &&|m &|m |||m ||
=< == => ==> m =|m <|m =|m =|m =|m >|
!!a ==> m !|m !|i a|
#<a+1 ==> m #|m <|i a|m +|1 1|
";

fn add_kind(text: &mut String, kind: TokenKind) -> Result<(), AllocError> {
    match kind {
        TokenKind::Identifier => text.push_str("i"),
        TokenKind::CheapName => text.push_str("c"),
        TokenKind::Directive => text.push_str("d"),
        TokenKind::Number(value) => write!(text, "{value}"),
        TokenKind::Character(byte) => write!(text, "h{byte}"),
        TokenKind::StringLiteral => text.push_str("s"),
        TokenKind::Unnamed => text.push_str("u"),
        TokenKind::SizePrefix(AddressSize::ZeroPage) => text.push_str("z"),
        TokenKind::SizePrefix(AddressSize::Absolute) => text.push_str("a"),
        TokenKind::Symbol(_) => text.push_str("m"),
    }
}

fn shown(alloc: Global, line: &[u8]) -> Result<String, Fail> {
    let mut text = String::new(alloc);
    match line_tokens(alloc, line) {
        Err(fault) => write!(text, "{fault}")?,
        Ok(tokens) => {
            for token in tokens.as_slice() {
                add_kind(&mut text, token.kind)?;
                text.push(' ')?;
                for byte in token.text {
                    text.push(char::from(*byte))?;
                }
                text.push('|')?;
            }
        }
    }
    Ok(text)
}

#[test]
fn tokens_of_lines(rt: HostRuntime) -> Result<(), Fail> {
    let mut count = 0u32;
    for row in ROWS.lines() {
        let (line, wanted) = row.split_once(" ==> ").ok_or("no arrow")?;
        let found = shown(rt.alloc(), line.as_bytes())?;
        assert_eq!(rt; found.as_str(), wanted);
        count = count.saturating_add(1);
    }
    assert_eq!(rt; count, 43);
    Ok(())
}

fn bytes_of(token: Option<Token<'_>>) -> &[u8] {
    match token {
        Some(token) => token.text,
        None => b"",
    }
}

#[test]
fn first_two_tokens(rt: HostRuntime) -> Result<(), Fail> {
    let two = first_tokens(b" @l: lda #1 ; c").ok().ok_or("refused")?;
    assert_eq!(rt; bytes_of(two.first), b"@l".as_slice());
    assert_eq!(rt; bytes_of(two.second), b":".as_slice());
    let two = first_tokens(b"\tnop").ok().ok_or("refused")?;
    assert_eq!(rt; bytes_of(two.first), b"nop".as_slice());
    assert!(rt; two.second.is_none());
    assert!(rt; matches!(first_tokens(b"nop 1 $zz"), Err(LexFault::BadNumber)));
    Ok(())
}

#[test]
fn token_by_token(rt: HostRuntime) -> Result<(), Fail> {
    let mut lexer = Lexer::new(b" lda [ ; c").ok().ok_or("refused")?;
    assert_eq!(rt;
        bytes_of(lexer.next().ok().ok_or("no token")?),
        b"lda".as_slice()
    );
    assert!(rt; matches!(lexer.next(), Err(LexFault::BadCharacter)));
    let mut lexer = Lexer::new(b"; c").ok().ok_or("refused")?;
    assert!(rt; matches!(lexer.next(), Ok(None)));
    Ok(())
}

#[test]
fn numbers_of_faults(rt: HostRuntime) {
    assert_eq!(rt; LexFault::NameTooLong as u8, 9);
    assert_eq!(rt; LexFault::BadNumber.message_text(), "bad number");
}
