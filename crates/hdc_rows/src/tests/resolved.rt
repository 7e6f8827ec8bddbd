//! Programs with the groups of their bindings, in the order in which they are typed.

use super::chains::prelude;
use super::trees::laid;
use hdc_base::Src;
use hdc_parse::parse;
use hdc_resolved::Resolved;
use hdc_top::resolved_tree;
use hdc_tree::Tree;
use std::alloc::{AllocError, Global};
use std::test::Fail;

// The groups of a text behind the prelude, as `f g; h`. Those of the prelude's bindings are left out.
fn groups(alloc: Global, prelude: &Tree, text: &str) -> Result<Vec<u8>, Fail> {
    let (tokens, end) = laid(alloc, text.as_bytes())?;
    let Ok(tree) = parse(alloc, tokens.as_slice(), end) else {
        return Err(Fail::from(AllocError));
    };
    let resolved = resolved_tree(alloc, prelude, &tree)?;
    let mut written = Vec::new(alloc);
    for group in resolved.groups.as_slice() {
        add_group(&resolved, group.as_slice(), &mut written)?;
    }
    Ok(written)
}

fn add_group(resolved: &Resolved, group: &[u32], written: &mut Vec<u8>) -> Result<(), AllocError> {
    let mut separator: &[u8] = if written.is_empty() { b"" } else { b"; " };
    for number in group {
        if let Some(decl) = resolved.decls.as_slice().get(*number as usize) {
            if decl.place.src == Src::Program {
                written.extend_from_slice(separator)?;
                written.extend_from_slice(decl.name.as_slice())?;
                separator = b" ";
            }
        }
    }
    Ok(())
}

const GROUPS: [(&str, &str); 14] = [
    ("main = 1", "main"),
    ("f = g\ng = 1", "g; f"),
    ("f = g\ng = f", "f g"),
    ("c = b\nb = a\na = 1", "a; b; c"),
    ("x = y\ny = x\nz = x\nw = 1", "x y; z; w"),
    ("g = let f = 1 in f\nf = g", "g; f"),
    ("f 0 = 1\nf n = g (n - 1)\ng n = f n", "f g"),
    (
        "f = [f | x <- g, let { y = h }, y]\nh = 1\ng = [f]",
        "h; f g",
    ),
    ("f = 1 +++ 2\na +++ b = a", "+++; f"),
    ("f x = g where { g = h }\nh = f 1\ng = h", "f h; g"),
    ("map f xs = foldr f xs\nfoldr = map", "map foldr"),
    ("f = 1 `g` 2\ng a b = \\f -> f a", "g; f"),
    (
        "f a\n  | g = 1\n  | a = case a of { f -> f; _ -> h }\ng = True\nh = f",
        "g; f h",
    ),
    (
        "data T = T Int\nf (T a) = a\nmain = (`f` 1) (T 2)",
        "f; main",
    ),
];

#[test]
fn bindings_fall_into_groups(rt: HostRuntime) -> Result<(), Fail> {
    let prelude = prelude(rt.alloc())?;
    for (text, expected) in GROUPS {
        let found = groups(rt.alloc(), &prelude, text)?;
        assert!(rt; found.as_slice() == expected.as_bytes(), "of {text}");
    }
    Ok(())
}
