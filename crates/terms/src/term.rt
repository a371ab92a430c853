ghost use Rattle.std.specs.Prelude.{◌≡◌};
ghost use Rattle.std.specs.Result.{result_ok};
ghost use Rattle.terms.specs.declared.term.Term.TheVariants.{Quote};
ghost use Rattle.terms.specs.declared.term.Definition.TheVariants.{Input};
ghost use Rattle.terms.specs.Form.{definition_right};
ghost use Rattle.terms.specs.Script.{bound_by, lambda_variable, occurs, cons_operands, parameter_for, takes_input};
ghost use Rattle.terms.specs.Syntax.{children, present, symbol_of, decode, of_kind, decode_definition, root_of};

use crate::raw::{RawDefinition, RawTerm};

// A term, with its children by label.
#[derive(Clone, Copy)]
pub enum Term {
    Number(u32),
    Quote(u8),
    Lambda {
        variable: u8,
        body: u8,
    },
    Variable(u8),
    Setq {
        variable: u8,
        value: u8,
    },
    Let {
        variable: u8,
        value: u8,
        body: u8,
    },
    If {
        condition: u8,
        then: u8,
        otherwise: u8,
    },
    Apply {
        operator: u8,
        operand: u8,
    },
    Cons {
        first: u8,
        second: u8,
    },
    Car(u8),
    Cdr(u8),
    Add {
        left: u8,
        right: u8,
    },
    Same {
        left: u8,
        right: u8,
    },
}

// A definition of the script, carried out before its entry term.
#[derive(Clone, Copy)]
pub enum Definition {
    Input {
        variable: u8,
    },
    Defvar {
        variable: u8,
        root: u8,
    },
    Defun {
        variable: u8,
        parameter: u8,
        root: u8,
    },
}

// The row is not in the form that the rules give for its kind.
#[derive(Clone, Copy, PartialEq, Eq, Debug)]
pub struct WrongForm;

// The term that a row stands for, if its kind exists, its labels and symbols are bytes and its unused numbers are zero.
impl TryFrom<RawTerm> for Term {
    type Error = WrongForm;

    ghost try_from_gives = { λ row r. result_ok r ≡ decode row };

    fn try_from(row: RawTerm) -> Result<Term, WrongForm> {
        Term::decode(row).ok_or(WrongForm)
    }
}

// Nil quoted, which stands wherever there is no term. By hand, as below: a derive takes a case without fields.
impl Default for Term {
    ghost is_default = { λ t. t ≡ Quote 0 };

    fn default() -> Term {
        Term::Quote(0)
    }
}

// The definition that a row stands for, if its kind exists, its numbers are bytes and the unused ones are zero.
impl TryFrom<RawDefinition> for Definition {
    type Error = WrongForm;

    ghost try_from_gives = { λ row r. result_ok r ≡ decode_definition row };

    fn try_from(row: RawDefinition) -> Result<Definition, WrongForm> {
        let Ok(variable) = u8::try_from(row.x) else {
            return Err(WrongForm);
        };
        let Ok(y) = u8::try_from(row.y) else {
            return Err(WrongForm);
        };
        let Ok(root) = u8::try_from(row.root) else {
            return Err(WrongForm);
        };
        match (row.kind, y, root) {
            (1, 0, 0) => Ok(Definition::Input { variable }),
            (2, 0, root) => Ok(Definition::Defvar { variable, root }),
            (3, parameter, root) => Ok(Definition::Defun {
                variable,
                parameter,
                root,
            }),
            _ => Err(WrongForm),
        }
    }
}

// What stands in the unused places of a list of definitions.
impl Default for Definition {
    ghost is_default = { λ d. d ≡ Input 0 };

    fn default() -> Definition {
        Definition::Input { variable: 0 }
    }
}

impl Term {
    // The same as by `try_from`, without an error: reading goes over many rows, and an `Option` of a term is cheaper there than a `Result`.
    pub(crate) fn decode(row: RawTerm) -> Option<Term>
        ensures { result ≡ decode row }
    {
        if row.kind == 1 {
            return if row.b == 0 && row.c == 0 {
                Some(Term::Number(row.a))
            } else {
                None
            };
        }
        let Ok(a) = u8::try_from(row.a) else {
            return None;
        };
        let Ok(b) = u8::try_from(row.b) else {
            return None;
        };
        let Ok(c) = u8::try_from(row.c) else {
            return None;
        };
        Term::of_kind(row.kind, a, b, c)
    }

    // The other kinds than numbers; the kind is a number as the row has it, and this is where it becomes a term.
    fn of_kind(kind: u32, a: u8, b: u8, c: u8) -> Option<Term>
        ensures { result ≡ of_kind kind a b c }
    {
        match (kind, b, c) {
            (2, 0, 0) => Some(Term::Quote(a)),
            (3, body, 0) => Some(Term::Lambda { variable: a, body }),
            (4, 0, 0) => Some(Term::Variable(a)),
            (5, value, 0) => Some(Term::Setq { variable: a, value }),
            (6, value, body) => Some(Term::Let {
                variable: a,
                value,
                body,
            }),
            (7, then, otherwise) => Some(Term::If {
                condition: a,
                then,
                otherwise,
            }),
            (8, operand, 0) => Some(Term::Apply {
                operator: a,
                operand,
            }),
            (9, second, 0) => Some(Term::Cons { first: a, second }),
            (10, 0, 0) => Some(Term::Car(a)),
            (11, 0, 0) => Some(Term::Cdr(a)),
            (12, right, 0) => Some(Term::Add { left: a, right }),
            (13, right, 0) => Some(Term::Same { left: a, right }),
            _ => None,
        }
    }

    // The labels of the children, in order; where there are fewer than three, none for the others.
    pub(crate) fn children(&self) -> [Option<u8>; 3]
        ensures { present result ≡ children self.now }
    {
        match *self {
            Term::Number(_) | Term::Quote(_) | Term::Variable(_) => [None, None, None],
            Term::Lambda { body: child, .. }
            | Term::Setq { value: child, .. }
            | Term::Car(child)
            | Term::Cdr(child) => [Some(child), None, None],
            Term::Let {
                value: first,
                body: second,
                ..
            }
            | Term::Apply {
                operator: first,
                operand: second,
            }
            | Term::Cons { first, second }
            | Term::Add {
                left: first,
                right: second,
            }
            | Term::Same {
                left: first,
                right: second,
            } => [Some(first), Some(second), None],
            Term::If {
                condition,
                then,
                otherwise,
            } => [Some(condition), Some(then), Some(otherwise)],
        }
    }

    // The variable that a let or a lambda binds in its body.
    pub(crate) fn bound(&self) -> Option<u8>
        ensures { result ≡ bound_by self.now }
    {
        match *self {
            Term::Let { variable, .. } | Term::Lambda { variable, .. } => Some(variable),
            _ => None,
        }
    }

    // The parameter of a lambda.
    pub(crate) fn parameter(&self) -> Option<u8>
        ensures { result ≡ lambda_variable self.now }
    {
        match *self {
            Term::Lambda { variable, .. } => Some(variable),
            _ => None,
        }
    }

    // The variable of an occurrence, which is a variable or a setq.
    pub fn occurrence(&self) -> Option<u8>
        ensures { result ≡ occurs self.now }
    {
        match *self {
            Term::Variable(variable) | Term::Setq { variable, .. } => Some(variable),
            _ => None,
        }
    }

    // The operands of a cons, whose values become the halves of a pair.
    pub fn cons_operands(&self) -> Option<(u8, u8)>
        ensures { result ≡ cons_operands self.now }
    {
        match *self {
            Term::Cons { first, second } => Some((first, second)),
            _ => None,
        }
    }

    // The symbol that the term quotes, or the variable that it names.
    pub(crate) fn symbol(&self) -> Option<u8>
        ensures { result ≡ symbol_of self.now }
    {
        match *self {
            Term::Quote(symbol) => Some(symbol),
            Term::Variable(variable) => Some(variable),
            Term::Lambda { variable, .. }
            | Term::Setq { variable, .. }
            | Term::Let { variable, .. } => Some(variable),
            _ => None,
        }
    }
}

impl Definition {
    // Whether each symbol that the definition names is below `symbols`.
    pub(crate) fn names_below(&self, symbols: u8) -> bool
        ensures { result ≡ definition_right symbols self.now }
    {
        match *self {
            Definition::Input { variable } | Definition::Defvar { variable, .. } => variable
                < symbols,
            Definition::Defun {
                variable,
                parameter,
                ..
            } => variable < symbols && parameter < symbols,
        }
    }

    // The parameter, if this is a defun whose body is `body`.
    pub(crate) fn parameter_for(&self, body: u8) -> Option<u8>
        ensures { result ≡ parameter_for self.now body }
    {
        match *self {
            Definition::Defun {
                parameter,
                root,
                ..
            } if root == body => Some(parameter),
            _ => None,
        }
    }

    // Whether this takes `variable` as an input.
    pub(crate) fn takes_input(&self, variable: u8) -> bool
        ensures { result ≡ takes_input self.now variable }
    {
        match *self {
            Definition::Input { variable: input } => input == variable,
            _ => false,
        }
    }

    // The root term, which an input has not.
    pub(crate) fn root(&self) -> Option<u8>
        ensures { result ≡ root_of self.now }
    {
        match *self {
            Definition::Input { .. } => None,
            Definition::Defvar { root, .. } | Definition::Defun { root, .. } => Some(root),
        }
    }
}
