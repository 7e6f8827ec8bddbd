//! Chains and how their trees are built, worked out by hand.

use super::{ChainStop, Fixity, NextOperand, Step, no_tree_behind, one_tree, steps};
use hdc_base::At;
use hdc_tree::Associativity;
use std::alloc::{AllocError, Global};
use std::test::Fail;

// An operator's fixity: `$` is infixr 0, `=` infix 4, `:` infixr 5, `#` infixl 5, `+` and `-` infixl 6, `&`
// infixr 6, `!` infix 6, `*` infixl 7, and any other infixr 9.
fn fixity(operator: u8) -> Fixity {
    let (precedence, associativity) = match operator {
        b'$' => (0, Associativity::Right),
        b'=' => (4, Associativity::Neither),
        b':' => (5, Associativity::Right),
        b'#' => (5, Associativity::Left),
        b'+' | b'-' => (6, Associativity::Left),
        b'&' => (6, Associativity::Right),
        b'!' => (6, Associativity::Neither),
        b'*' => (7, Associativity::Left),
        _ => (9, Associativity::Right),
    };
    Fixity {
        precedence,
        associativity,
    }
}

// The chain of a text, each of whose operands is one letter.
#[derive(Drop)]
struct Chain {
    signed: bool,
    rest: Vec<NextOperand>,
    operands: Vec<u8>,
    operators: Vec<u8>,
}

fn read(alloc: Global, text: &str) -> Result<Chain, AllocError> {
    let mut chain = Chain {
        signed: false,
        rest: Vec::new(alloc),
        operands: Vec::new(alloc),
        operators: Vec::new(alloc),
    };
    let mut signed = false;
    let mut operator = b' ';
    for byte in text.as_bytes() {
        if byte.is_ascii_lowercase() {
            if operator == b' ' {
                chain.signed = signed;
            } else {
                let fixity = fixity(operator);
                let at = At { line: 1, col: 1 };
                chain.rest.push(NextOperand { fixity, signed, at })?;
            }
            chain.operands.push(*byte)?;
            chain.operators.push(operator)?;
            signed = false;
            operator = b' ';
        } else if *byte == b'-' && (operator != b' ' || chain.operands.is_empty()) {
            signed = true;
        } else {
            operator = *byte;
        }
    }
    Ok(chain)
}

// The steps of a chain: its letters, its operators behind their operands, and `~` for a sign.
fn written(alloc: Global, text: &str) -> Result<Vec<u8>, ChainStop> {
    let chain = read(alloc, text)?;
    let mut out = Vec::new(alloc);
    let mut letters = chain.operands.iter().copied();
    for step in steps(alloc, chain.signed, chain.rest.as_slice())?.as_slice() {
        match step {
            Step::Operand => out.push(letters.next().unwrap_or(b'?'))?,
            Step::Sign(_number) => out.push(b'~')?,
            Step::Operator(number) => out.push(*chain.operators.get(*number).unwrap_or(&b'?'))?,
        }
    }
    Ok(out)
}

const BUILT: [(&str, &str); 14] = [
    ("a", "a"),
    ("-a", "a~"),
    ("a+b*c", "abc*+"),
    ("a*b+c", "ab*c+"),
    ("a-b-c", "ab-c-"),
    ("a:b:c", "abc::"),
    ("a.b.c", "abc.."),
    ("-a*b", "ab*~"),
    ("-a+b", "a~b+"),
    ("-a:b", "a~b:"),
    ("a=-b", "ab~="),
    ("a$-b+c", "ab~c+$"),
    ("a=b+c*d-e", "abcd*+e-="),
    ("a:b+c:d$e", "abc+d::e$"),
];

#[test]
fn each_chain_is_built_by_its_steps(rt: HostRuntime) -> Result<(), Fail> {
    one_tree();
    no_tree_behind();
    for (text, steps) in BUILT {
        match written(rt.alloc(), text) {
            Ok(found) => assert_eq!(rt; found.as_slice(), steps.as_bytes(), "of {text}"),
            Err(_stop) => assert!(rt; false, "of {text}"),
        }
    }
    Ok(())
}

const WITHOUT: [(&str, usize); 15] = [
    ("a=b=c", 2),
    ("a=b=c=d", 2),
    ("a=b+c=d", 3),
    ("a=b=-c", 2),
    ("a+-b", 1),
    ("a*-b", 1),
    ("a#b:c", 2),
    ("a:b#c", 2),
    ("a+b:c#d", 3),
    ("a&-b", 1),
    ("-a&b", 1),
    ("a!-b", 1),
    ("-a!b", 1),
    ("a!b+c", 2),
    ("a&b!c", 2),
];

#[test]
fn other_chains_have_no_tree(rt: HostRuntime) -> Result<(), Fail> {
    for (text, number) in WITHOUT {
        match written(rt.alloc(), text) {
            Err(ChainStop::NoTree(found)) => assert_eq!(rt; found, number, "of {text}"),
            _ => assert!(rt; false, "of {text}"),
        }
    }
    Ok(())
}
