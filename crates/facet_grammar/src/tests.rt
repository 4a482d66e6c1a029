use crate::command::Command;
use crate::reading::{read_command, read_tokens};
use crate::token::{Kind, Part, Token};
use std::alloc::Global;
use std::test::Fail;

// Whether a line is a `put` of these tokens.
fn is_put(alloc: Global, line: &[u8], name: &str, shape: u32, text: &str) -> Result<bool, Fail> {
    match read_command(alloc, line)? {
        Some(Command::Put(a, s, t)) => Ok(a.as_str() == name && s.0 == shape && t.as_str() == text),
        _ => Ok(false),
    }
}

#[test]
fn tokens_stand_in_order(rt: HostRuntime) -> Result<(), Fail> {
    let alloc = rt.alloc();
    assert!(rt; is_put(alloc, b"put a #3 two words ", "a", 3, "two words ")?);
    assert!(rt; is_put(alloc, b"put _0 #999999999 ", "_0", 999_999_999, "")?);
    assert!(rt; is_put(alloc, b"put a #0 x\r", "a", 0, "x\r")?);
    Ok(())
}

#[test]
fn other_lines_are_none(rt: HostRuntime) -> Result<(), Fail> {
    for line in [
        b"".as_slice(),
        b"put a #3",
        b" put a #3 x",
        b"put  a #3 x",
        b"puts a #3 x",
        b"put a- #3 x",
        b"put a 3 x",
        b"put a #03 x",
        b"put a #1000000000 x",
        b"put a #3 x\n",
        b"put a #3 \n",
        b"put a #3 \xff",
    ] {
        let command = read_command(rt.alloc(), line)?;
        assert!(rt; command.is_none());
    }
    Ok(())
}

// How many names stand behind a word.
fn count_names(alloc: Global, behind: Option<&str>) -> Result<Option<usize>, Fail> {
    match read_tokens(alloc, &[Part::Token(Kind::Names)], behind)? {
        Some(mut tokens) => match tokens.pop_front() {
            Some(Token::Names(names)) => Ok(Some(names.len())),
            _ => Ok(None),
        },
        None => Ok(None),
    }
}

#[test]
fn names_go_on_to_the_end(rt: HostRuntime) -> Result<(), Fail> {
    let alloc = rt.alloc();
    assert!(rt; count_names(alloc, None)? == Some(0));
    assert!(rt; count_names(alloc, Some("a b c"))? == Some(3));
    assert!(rt; count_names(alloc, Some("a b "))?.is_none());
    Ok(())
}

#[test]
fn declarations_are_commands(rt: HostRuntime) -> Result<(), Fail> {
    for line in [
        b"seal".as_slice(),
        b"shape option #0",
        b"shape boxed_slice #999999999",
        b"shape array #6 0",
        b"shape map #3 #6",
        b"shape tuple #1 #2 #3 #4 #5 #6 #7 #8 #9 #10 #11 #12",
        b"shape struct P 8 4 eg .repr=c .id=7 .param=T:#6 .param=U:#7 .dep==#6 x:#6@0 y:#6@4!",
        b"shape struct E 0 1 -",
        b"shape tuple_struct N 4 4 e .packed 0:#6@0",
        b"shape enum S 8 4 u8 - A B=-1 C(0:#6@4) D{x:#6@4,y:#4@2}",
        b"shape opaque O 1 1 .mod=a::b .base=i",
        b"shape opaque unsized unsized",
        b"shape scalar Port u16 2 2 eg",
    ] {
        let command = read_command(rt.alloc(), line)?;
        assert!(rt; command.is_some());
    }
    Ok(())
}

#[test]
fn one_byte_makes_a_declaration_none(rt: HostRuntime) -> Result<(), Fail> {
    for line in [
        b"seal ".as_slice(),
        b"seal\r",
        b"shape optio #0",
        b"shape option #0 ",
        b"shape array #6 -0",
        b"shape array #6 1234567890",
        b"shape tuple",
        b"shape tuple #0 #1 #2 #3 #4 #5 #6 #7 #8 #9 #10 #11 #12",
        b"shape struct P 8 4 ee x:#6@0",
        b"shape struct P 8 4 ge x:#6@0",
        b"shape struct P 8 4  x:#6@0",
        b"shape struct P 8 4 e .id=7 .repr=c",
        b"shape struct P 8 4 e x:#6@0 .id=7",
        b"shape struct P 8 4 e x:#6@0!!",
        b"shape enum S 8 4 u8 - C()",
        b"shape enum S 8 4 u8 - B=-0",
        b"shape opaque O 1 1 .repr=c",
        b"shape opaque O unsized .packed",
        b"shape opaque O 1 1 x:#6@0",
        b"shape scalar Port str 2 2 eg",
    ] {
        let command = read_command(rt.alloc(), line)?;
        assert!(rt; command.is_none());
    }
    Ok(())
}
