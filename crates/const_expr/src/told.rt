//! What is told of an expression.

ghost use Rattle.std.specs.Prelude.{◌≡◌, [], ◌∷◌};
ghost use Rattle.ftn_tree.specs.ConstantFaults.{constant_rank};
ghost use Rattle.ftn_tree.specs.Evaluations as spec;
ghost use Rattle.const_expr.specs.FirstTold as steps;

use ftn_base::FaultKind;
use ftn_tree::ValueFault;

/// An operation without a value: what is told of it, and the first token of the expression.
#[derive(Clone, Copy)]
pub struct Breach {
    /// What is wrong.
    pub kind: FaultKind,
    /// The token.
    pub token: u32,
}

/// The first of what is told of an expression.
#[derive(Clone, Copy)]
pub struct Told {
    /// The first of the names in it that have no place in a constant expression.
    pub stray: Option<u32>,
    /// The first of its operations that have no value; of those at one token the first by kind.
    pub breach: Option<Breach>,
}

/// The order of the kinds at one place.
fn rank(kind: FaultKind) -> u64
    ensures { result ≡ constant_rank kind }
{
    match kind {
        FaultKind::NotConstant => 0,
        FaultKind::Overflow => 1,
        FaultKind::Zero => 2,
        FaultKind::Circular => 3,
        FaultKind::BadShape => 4,
        _ => 5,
    }
}

/// What is told of an operation without a value. That operands have other types than are wanted is told elsewhere.
fn told_of(fault: ValueFault) -> Option<FaultKind>
    ensures { result ≡ spec.told_of fault }
{
    match fault {
        ValueFault::TooBig => Some(FaultKind::Overflow),
        ValueFault::ByZero => Some(FaultKind::Zero),
        ValueFault::OutOfRange => Some(FaultKind::NotConstant),
        ValueFault::IllTyped => None,
    }
}

fn earlier_token(one: Option<u32>, other: Option<u32>) -> Option<u32>
    ensures { result ≡ steps.sooner steps.itself one other }
{
    match one {
        None => other,
        Some(first) => match other {
            None => Some(first),
            Some(second) => {
                if second < first {
                    Some(second)
                } else {
                    Some(first)
                }
            }
        },
    }
}

impl Breach {
    fn key(&self) -> u64
        ensures { result ≡ steps.breach_key self.now }
    {
        u64::from(self.token) * 8 + rank(self.kind)
    }
}

fn earlier_breach(one: Option<Breach>, other: Option<Breach>) -> Option<Breach>
    ensures { result ≡ steps.sooner steps.breach_key one other }
{
    match one {
        None => other,
        Some(first) => match other {
            None => Some(first),
            Some(second) => {
                if second.key() < first.key() {
                    Some(second)
                } else {
                    Some(first)
                }
            }
        },
    }
}

impl Told {
    /// Nothing.
    pub fn nothing() -> Told
        ensures { result ≡ steps.told_by [] [] }
    {
        Told {
            stray: None,
            breach: None,
        }
    }

    /// A name that has no place there.
    pub fn stray(token: u32) -> Told
        ensures { result ≡ steps.told_by (token ∷ []) [] }
    {
        Told {
            stray: Some(token),
            breach: None,
        }
    }

    /// An operation without a value.
    pub fn breach(fault: ValueFault, token: u32) -> Told
        ensures { result ≡ steps.told_by [] ((fault, token) ∷ []) }
    {
        Told {
            stray: None,
            breach: match told_of(fault) {
                Some(kind) => Some(Breach { kind, token }),
                None => None,
            },
        }
    }

    /// The first of what is told of both.
    pub fn joined(&self, other: &Told) -> Told
        ensures { result ≡ steps.joined self.now other.now }
    {
        Told {
            stray: earlier_token(self.stray, other.stray),
            breach: earlier_breach(self.breach, other.breach),
        }
    }
}
