//! From an expression to its code.

ghost use Rattle.std.specs.Prelude.{◌≡◌, Some, [], ◌∷◌, ◌++◌, IfOk, OnOk};
ghost use Rattle.hdc_resolved.specs.Mirror.{expression_of};
ghost use Rattle.hdc_top.specs.Arithmetic.{arithmetic, built_in_operator, operator_of};
ghost use Rattle.hdc_top.specs.Code.{Carries, Emits};

use hdc_base::Want;
use hdc_code::{Instr, Instrs};
use hdc_resolved::{Exp, Literal, Name, Primitive};
use hdc_value::Op;
use std::alloc::{AllocError, Global};

/// The code of the program that binds `main` to this expression, if it is one of arithmetic.
pub fn generate(alloc: Global, exp: &Exp) -> Result<Option<Instrs>, Want>
    ensures { IfOk result (λ code. Carries (arithmetic (expression_of exp.now)) code) }
{
    let mut code = Vec::new(alloc);
    put(&mut code, Instr::Tick)?;
    if emit(&mut code, exp)? {
        put(&mut code, Instr::Ret)?;
        Ok(Some(Instrs::from_vec(code)))
    } else {
        Ok(None)
    }
}

// The instructions that leave the value of an expression, if it is one of arithmetic.
#[tactic(auto, using(hdc_resolved::proofs::Mirror::mirrored, crate::proofs::Emitting::lacks))]
fn emit(code: &mut Vec<Instr>, exp: &Exp) -> Result<bool, AllocError>
    ensures { Emits (arithmetic (expression_of exp.now)) code.old.items code.new.items result }
{
    match exp {
        Exp::Lit(_place, literal) => match literal {
            Literal::Int(value) => {
                put(code, Instr::Int(*value))?;
                Ok(true)
            }
            Literal::Chr(_code) => Ok(false),
            Literal::Str(_codes) => Ok(false),
        },
        Exp::Infix(_place, left, operator, right) => {
            let Some(op) = operator_of(operator.name) else {
                return Ok(false);
            };
            if !emit(code, left.get())? {
                return Ok(false);
            }
            if !emit(code, right.get())? {
                return Ok(false);
            }
            put(code, Instr::Prim(op, operator.place))?;
            Ok(true)
        }
        Exp::Name(_used) => Ok(false),
        Exp::App(_place, _function, _argument) => Ok(false),
        Exp::Neg(_place, _operand) => Ok(false),
        Exp::Section(_place, _side, _number, _operator, _operand) => Ok(false),
        Exp::Lambda(_place, _pats, _body) => Ok(false),
        Exp::If(_place, _test, _yes, _other) => Ok(false),
        Exp::Case(_place, _matched, _alternatives) => Ok(false),
        Exp::Let(_place, _block, _body) => Ok(false),
        Exp::Row(_place, _kind, _members) => Ok(false),
        Exp::Range(_place, _enumeration, _from, _to) => Ok(false),
        Exp::Comp(_place, _qualifiers) => Ok(false),
    }
}

// The operator of arithmetic that a name stands for.
fn operator_of(name: Name) -> Option<Op>
    ensures { result ≡ operator_of name }
{
    match name {
        Name::Primitive(primitive) => built_in_operator(primitive),
        Name::Top(_number) => None,
        Name::Local(_number) => None,
        Name::Con(_constructor) => None,
        Name::Skeleton(_kind, _degree) => None,
        Name::Unknown => None,
    }
}

fn built_in_operator(primitive: Primitive) -> Option<Op>
    ensures { result ≡ built_in_operator primitive }
{
    match primitive {
        Primitive::Add => Some(Op::Add),
        Primitive::Sub => Some(Op::Sub),
        Primitive::Mul => Some(Op::Mul),
        Primitive::Div => None,
        Primitive::Mod => None,
        Primitive::Quot => None,
        Primitive::Rem => None,
        Primitive::Negate => None,
        Primitive::Equal => None,
        Primitive::Unequal => None,
        Primitive::Less => None,
        Primitive::AtMost => None,
        Primitive::Greater => None,
        Primitive::AtLeast => None,
        Primitive::And => None,
        Primitive::Or => None,
        Primitive::Ord => None,
        Primitive::Chr => None,
        Primitive::Error => None,
    }
}

// One more instruction.
fn put(code: &mut Vec<Instr>, instr: Instr) -> Result<(), AllocError>
    ensures { OnOk result (code.new.items ≡ code.old.items ++ instr ∷ []) }
{
    code.push(instr)?;
    Ok(())
}
