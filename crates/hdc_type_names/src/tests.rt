//! Small texts, worked out by hand.

use super::{
    TypeName, bind_parameters, bind_prelude_types, bind_program_types, resolve_field,
    resolve_signature_type, resolve_synonyms,
};
use hdc_base::At;
use hdc_resolved::Type;
use hdc_tree::{ArrowType, Atype, Btype, ModuleHead, Name, Synonym, Top, Tree, TypeExp};
use sqlite_items::{Boxed, Items};
use std::alloc::{AllocError, Global};
use std::test::Fail;

const NOWHERE: At = At { line: 0, col: 0 };

fn name(alloc: Global, text: &str) -> Result<Name, AllocError> {
    Ok(Name {
        at: NOWHERE,
        text: Items::from_slice(alloc, text.as_bytes())?,
    })
}

fn variable(alloc: Global, text: &str) -> Result<Btype, AllocError> {
    Ok(Btype::Plain(Atype::Var(name(alloc, text)?)))
}

// `type NAME a = ARGUMENT`
fn synonym(alloc: Global, text: &str, argument: &str) -> Result<Tree, AllocError> {
    let mut params = Items::new(alloc);
    params.push(name(alloc, "a")?)?;
    let synonym = Synonym {
        at: NOWHERE,
        name: name(alloc, text)?,
        params,
        equal: NOWHERE,
        meaning: TypeExp {
            first: variable(alloc, argument)?,
            rest: Items::new(alloc),
        },
    };
    Ok(Tree {
        head: Boxed::new(alloc, ModuleHead::Absent)?,
        open_at: NOWHERE,
        first: Boxed::new(alloc, Top::Synonym(synonym))?,
        rest: Items::new(alloc),
        close_at: NOWHERE,
    })
}

// `b -> a -> b`
fn arrows(alloc: Global) -> Result<TypeExp, AllocError> {
    let mut rest = Items::new(alloc);
    rest.push(ArrowType {
        arrow: NOWHERE,
        part: variable(alloc, "a")?,
    })?;
    rest.push(ArrowType {
        arrow: NOWHERE,
        part: variable(alloc, "b")?,
    })?;
    Ok(TypeExp {
        first: variable(alloc, "b")?,
        rest,
    })
}

fn number_of(part: &Type) -> Option<u32> {
    match part {
        Type::Var(number) => Some(*number),
        _ => None,
    }
}

#[test]
fn names_of_a_program_shadow_those_of_the_prelude(rt: HostRuntime) -> Result<(), Fail> {
    let alloc = rt.alloc();
    let prelude = synonym(alloc, "Same", "a")?;
    let program = synonym(alloc, "Same", "a")?;
    let before = bind_prelude_types(alloc, &prelude)?;
    let names = bind_program_types(alloc, &prelude, &program)?;
    assert_eq!(rt; before.find(b"Same"), Some(TypeName::Synonym(0)));
    assert_eq!(rt; names.find(b"Same"), Some(TypeName::Synonym(1)));
    assert_eq!(rt; names.find(b"Bool"), Some(TypeName::Data(0)));
    assert_eq!(rt; names.find(b"Int"), Some(TypeName::Int));
    assert_eq!(rt; names.find(b"Char"), Some(TypeName::Char));
    Ok(())
}

#[test]
fn variables_are_numbered_as_they_are_met(rt: HostRuntime) -> Result<(), Fail> {
    let alloc = rt.alloc();
    let prelude = synonym(alloc, "Same", "a")?;
    let names = bind_prelude_types(alloc, &prelude)?;
    let written = arrows(alloc)?;
    let resolved = resolve_signature_type(alloc, &names, &written)?;
    if let Type::Fun(first, rest) = &resolved {
        assert_eq!(rt; number_of(first.get()), Some(0));
        if let Type::Fun(second, last) = rest.get() {
            assert_eq!(rt; number_of(second.get()), Some(1));
            assert_eq!(rt; number_of(last.get()), Some(0));
            return Ok(());
        }
    }
    assert!(rt; false);
    Ok(())
}

#[test]
fn fields_have_the_variables_of_the_head(rt: HostRuntime) -> Result<(), Fail> {
    let alloc = rt.alloc();
    let prelude = synonym(alloc, "Same", "a")?;
    let names = bind_prelude_types(alloc, &prelude)?;
    let mut head = Items::new(alloc);
    head.push(name(alloc, "a")?)?;
    head.push(name(alloc, "b")?)?;
    let variables = bind_parameters(alloc, head.as_slice())?;
    let field = Atype::Var(name(alloc, "b")?);
    let resolved = resolve_field(alloc, &names, &variables, &field)?;
    assert_eq!(rt; number_of(&resolved), Some(1));
    Ok(())
}

#[test]
fn synonyms_stand_in_the_order_of_the_text(rt: HostRuntime) -> Result<(), Fail> {
    let alloc = rt.alloc();
    let prelude = synonym(alloc, "Same", "a")?;
    let program = synonym(alloc, "Other", "b")?;
    let synonyms = resolve_synonyms(alloc, &prelude, &program)?;
    assert_eq!(rt; synonyms.len(), 2);
    if let [first, second] = synonyms.as_slice() {
        assert!(rt; first.name.as_slice() == b"Same".as_slice());
        assert_eq!(rt; first.params, 1);
        assert_eq!(rt; number_of(&first.meaning), Some(0));
        assert!(rt; second.name.as_slice() == b"Other".as_slice());
        assert_eq!(rt; number_of(&second.meaning), None);
    }
    Ok(())
}
