//! Which of the declared variables are the wire that is read.

ghost use Rattle.std.specs.Prelude.{◌≡◌, ◌++◌, ◌∷◌, [], ℕ, List, Option, if◌then◌else◌};
ghost use Rattle.irig_vcd.specs.Wire.{chosen, code_of, by_reference, by_code};
ghost use Rattle.irig_vcd.specs.Code.Choice.{Chosen, KeepsChoices};
ghost use Rattle.irig_vcd.specs.{Answer.Gives, Answer.name_of, Variables.Declared};
ghost use Rattle.irig_vcd.specs.{Code.Variable.variable_view};

use crate::fault::VcdFault;
use crate::variable::Variable;

/// What some variables have in common: the code of the first, whether another one has another code
/// (`many`), and whether one is not of one bit (`wide`).
#[derive(Clone, Copy)]
pub struct Choice<'a> {
    pub code: Option<&'a [u8]>,
    pub many: bool,
    pub wide: bool,
}

/// The two choices that a wire's name may mean: by reference, and by code.
#[derive(Clone, Copy)]
pub struct Choices<'a> {
    pub by_reference: Choice<'a>,
    pub by_code: Choice<'a>,
}

/// A choice with no variable in it yet.
pub fn new_choice<'a>() -> Choice<'a>
    ensures { Chosen [] result }
{
    Choice {
        code: None,
        many: false,
        wide: false,
    }
}

/// Both choices after one more variable, which goes into both, one or none of them: by its
/// reference, and by its code.
pub fn with_variable<'a>(
    choices: Choices<'a>,
    variable: Variable<'a>,
    wire: Option<&[u8]>,
) -> Choices<'a>
    ensures { (vs : List Declared)
        → KeepsChoices (name_of wire.entry) vs choices.entry
        → KeepsChoices (name_of wire.entry) (vs ++ variable_view variable.entry ∷ []) result }
{
    Choices {
        by_reference: put_if(
            has_reference(variable, wire),
            choices.by_reference,
            variable,
        ),
        by_code: put_if(has_code(variable, wire), choices.by_code, variable),
    }
}

/// The choice by reference, unless no variable is in it; then the one by code.
pub fn choice_of<'a>(choices: Choices<'a>) -> Choice<'a>
    ensures { (wire : Option (List ℕ)) (vs : List Declared)
        → KeepsChoices wire vs choices.entry
        → Chosen (chosen wire vs) result }
{
    match choices.by_reference.code {
        None => choices.by_code,
        Some(_) => choices.by_reference,
    }
}

/// The code that all have; or, in this order, `NoSuchWire`, `ManyWires` or `NotOneBit`.
pub fn common_code(choice: Choice<'_>) -> Result<&[u8], VcdFault>
    ensures { (vs : List Declared)
        → Chosen vs choice.entry
        → Gives (λ c. c.now) result (code_of vs) }
{
    match choice.code {
        None => Err(VcdFault::NoSuchWire),
        Some(code) => {
            if choice.many {
                Err(VcdFault::ManyWires)
            } else if choice.wide {
                Err(VcdFault::NotOneBit)
            } else {
                Ok(code)
            }
        }
    }
}

/// Whether its reference is the wire's name; without a name, whether it is of one bit.
fn has_reference(variable: Variable<'_>, wire: Option<&[u8]>) -> bool
    ensures { result ≡ by_reference (name_of wire.entry) (variable_view variable.entry) }
{
    match wire {
        None => variable.one_bit,
        Some(name) => variable.reference == name,
    }
}

/// Whether its code is the wire's name; without a name it is not.
fn has_code(variable: Variable<'_>, wire: Option<&[u8]>) -> bool
    ensures { result ≡ by_code (name_of wire.entry) (variable_view variable.entry) }
{
    match wire {
        None => false,
        Some(name) => variable.code == name,
    }
}

fn put_if<'a>(is_in: bool, choice: Choice<'a>, variable: Variable<'a>) -> Choice<'a>
    ensures { (vs : List Declared)
        → Chosen vs choice.entry
        → Chosen (vs ++ (if is_in then variable_view variable.entry ∷ [] else [])) result }
{
    if is_in { put(choice, variable) } else { choice }
}

/// The first variable gives the code; a later one with another code sets `many`.
fn put<'a>(choice: Choice<'a>, variable: Variable<'a>) -> Choice<'a>
    ensures { (vs : List Declared)
        → Chosen vs choice.entry
        → Chosen (vs ++ variable_view variable.entry ∷ []) result }
{
    match choice.code {
        None => Choice {
            code: Some(variable.code),
            many: false,
            wide: !variable.one_bit,
        },
        Some(code) => Choice {
            code: Some(code),
            many: choice.many || code != variable.code,
            wide: choice.wide || !variable.one_bit,
        },
    }
}
